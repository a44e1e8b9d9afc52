//! A store whose files are checked.

ghost use Rattle.std.specs.Prelude.{◌≡◌, IsTrue};
ghost use Rattle.sqlite.specs.State as db;
ghost use Rattle.sqlite.specs.Tree.{Trees};
ghost use Rattle.dep_tables.specs.Edits.{IsObjectAfter};
ghost use Rattle.dep_schema.specs.Fixity.{IsAudited};
ghost use Rattle.dep_store.specs.Staying.{ReportsTables};

use crate::store::Store;
use dep_schema::{Audit, Watch};
use dep_types::StoreFault;
use sqlite::Alter;

/// A database whose files are checked, one object after another.
pub trait AuditSource {
    /// How it stands.
    ghost database: { Self → db.State };

    /// Returns the least number of an object above this one, if there is one.
    fn next_object(&mut self, after: u64) -> Result<Option<u64>, StoreFault>
        ensures rows { ReportsTables (database self.old) (database self.new)
            (IsObjectAfter after) result };

    /// Checks the files of an object by both digests. The watch is told of each block that is read.
    fn audit<W: Watch>(&mut self, object: u64, watch: &mut W) -> Result<Audit, StoreFault>
        ensures does { ReportsTables (database self.old) (database self.new)
            (λ t. IsAudited t object) result };

    // While it is open, a crash leaves what it has.
    ghost settled: { (x : Self) (trees : Trees) → IsTrue (database x).is_open
        → (database x).may_leave trees → trees ≡ (database x).committed.trees };
}

impl<S: Alter> AuditSource for Store<S> {
    ghost use Rattle.sqlite.specs.Held.{state};

    ghost database = { state S.Store };

    fn next_object(&mut self, after: u64) -> Result<Option<u64>, StoreFault> {
        Store::next_object(self, after)
    }

    fn audit<W: Watch>(&mut self, object: u64, watch: &mut W) -> Result<Audit, StoreFault> {
        Store::audit(self, object, watch)
    }

    ghost settled = { λ store trees is_open may. S.Store.settled store.store trees is_open may };
}
