//! The indexes of the tables, which statements of their own make.

ghost use Rattle.dep_migrations.specs.Beside.{AddsIndexes};
ghost use Rattle.dep_migrations.specs.Faults.{FailsToIndex};
ghost use Rattle.dep_migrations.specs.Running.{TurnsDatabase, WorksWithin};

use dep_tables::Statements;
use dep_types::StoreFault;

/// Both indexes, one after the other: by the first the files of an object are found, by the second the upload
/// that was left the longest.
pub(crate) fn create_indexes<T: Statements>(tx: &mut T) -> Result<(), StoreFault>
    ensures adds { TurnsDatabase (T.state tx.old) (T.state tx.new) result AddsIndexes }
    ensures works { WorksWithin T.lenders T.state tx.old tx.new result
        (FailsToIndex T.state tx.old tx.new) }
{
    tx.run("CREATE INDEX files_of_object ON files (object, file)", &[])?;
    tx.run(
        "CREATE INDEX uploads_by_last ON uploads (last, upload)",
        &[],
    )
}
