//! The tables of version 1 become those of version 2.

ghost use Rattle.std.specs.Prelude.{IsTrue, OnOk};
ghost use Rattle.sqlite.specs.State.{HasCleanDisk};
ghost use Rattle.dep_tables.specs.Tables.{tables_of, IsOlder};
ghost use Rattle.dep_row_maps.specs.Clauses.{Becomes};
ghost use Rattle.dep_row_maps.specs.Sha512s.{upgraded};
ghost use Rattle.dep_migrations.specs.Beside.{AreNewNamesFree};
ghost use Rattle.dep_migrations.specs.Causes.{FailsSince};
ghost use Rattle.dep_migrations.specs.FirstTables.{SeesTables};
ghost use Rattle.dep_migrations.specs.Running.{TurnsDatabase, WorksWithin};
ghost use Rattle.dep_migrations.specs.Upgrading.{with_no_sha512s, with_sha512s, FailsToExtend, FailsToPut, FailsToRewrite};

use crate::indexing::create_indexes;
use crate::making::SHA512S;
use dep_tables::{BlockOwner, FileSha512, Statements, insert_sha512, write_version};
use dep_types::StoreFault;

/// What version 2 has beside the tables of version 1: the table `sha512s`, empty, and the indexes.
fn extend_schema<T: Statements>(tx: &mut T) -> Result<(), StoreFault>
    ensures ok { HasCleanDisk (T.state tx.new) → IsTrue (T.state tx.old).in_transaction
        → IsOlder (T.state tx.old)
        → OnOk result (SeesTables (T.state tx.new) (with_no_sha512s (tables_of (T.state tx.old)))) }
    ensures free { TurnsDatabase (T.state tx.old) (T.state tx.new) result
        (λ old _. AreNewNamesFree old.schema) }
    ensures works { WorksWithin T.lenders T.state tx.old tx.new result
        (FailsToExtend T.state tx.old tx.new) }
{
    tx.run(SHA512S, &[])?;
    create_indexes(tx)
}

/// The values of files, one after another.
fn insert_values<T: Statements>(tx: &mut T, values: &[FileSha512]) -> Result<(), StoreFault>
    ensures ok { Becomes (T.state tx.old) (T.state tx.new) result (with_sha512s values.now) }
    ensures works { WorksWithin T.lenders T.state tx.old tx.new result
        (FailsSince T.state (FailsToPut values.now) tx.old tx.new) }
{
    'values: for value in values {
        insert_sha512(tx, BlockOwner::File(value.file), &value.value)?;
    }
    Ok(())
}

/// The tables and indexes of version 2 in place of the tables of version 1, with these values.
pub fn upgrade_tables<T: Statements>(tx: &mut T, values: &[FileSha512]) -> Result<(), StoreFault>
    ensures ok { HasCleanDisk (T.state tx.new) → IsTrue (T.state tx.old).in_transaction
        → IsOlder (T.state tx.old)
        → OnOk result (SeesTables (T.state tx.new) (upgraded values.now (tables_of (T.state tx.old)))) }
    ensures free { TurnsDatabase (T.state tx.old) (T.state tx.new) result
        (λ old _. AreNewNamesFree old.schema) }
    ensures works { WorksWithin T.lenders T.state tx.old tx.new result
        (FailsToRewrite T.state tx.old tx.new values.now) }
{
    extend_schema(tx)?;
    insert_values(tx, values)?;
    write_version(tx)
}
