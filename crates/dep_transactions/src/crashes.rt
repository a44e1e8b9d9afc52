//! What a crash leaves while the store is open, and that no transaction opens it.

ghost use Rattle.std.specs.Prelude.{IsTrue};
ghost use Rattle.sqlite.specs.State.{HasCleanDisk};
ghost use Rattle.sqlite.specs.Held.{Held, state};
ghost use Rattle.sqlite.specs.Tree.{Trees};
ghost use Rattle.dep_tables.specs.Tables.{Tables};
ghost use Rattle.dep_transactions.specs.OpenTables.{Holds, StaysFile, WholeTransaction};

use sqlite::{Alter, Connection};

/// While the store is open, a crash leaves the last commit and nothing else.
pub fn settled<S: Alter>(connection: &Connection<S>)
    ensures left { (tables : Tables) → StaysFile (state S.Store connection.now) tables
        → (trees : Trees) → (state S.Store connection.now).may_leave trees → Holds trees tables }
    ensures clean { IsTrue (state S.Store connection.now).is_open
        → HasCleanDisk (state S.Store connection.now) }
{}

/// A whole transaction that ends with the store open began with it open, whether or not it was committed.
pub fn began_open<S: Alter>()
    ensures { (old inside new : Held S) → WholeTransaction S.Store old inside new
        → IsTrue (state S.Store new).is_open → IsTrue (state S.Store old).is_open }
{}
