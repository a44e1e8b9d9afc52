//! The tables of version 1 turned into those of version 2.

ghost use Rattle.std.specs.Prelude.{◌≡◌, IsTrue, false};
ghost use Rattle.sqlite.specs.Held.{state};
ghost use Rattle.dep_store.specs.Causes.{FailsMigrating, MigratesToFree};
ghost use Rattle.dep_store.specs.Migrating.{FallsBack, Migrates};

use dep_schema::{Watch, hash_files};
use dep_transactions::upgrade;
use dep_types::StoreFault;
use sqlite::{Alter, Connection};
use std::alloc::Global;

/// Turns the tables of version 1 into those of version 2. First it reads each file's bytes as they stand, outside a
/// transaction, and the watch is told of each block; then one transaction makes the table of the values, puts them in, and
/// sets the version.
pub(crate) fn migrate<S: Alter, W: Watch>(
    connection: &mut Connection<S>,
    alloc: Global,
    watch: &mut W,
) -> Result<(), StoreFault>
    requires settled { (state S.Store connection.old).in_transaction ≡ false }
    ensures migrates { Migrates (state S.Store connection.old) (state S.Store connection.new) result }
    ensures mode { (state S.Store connection.new).in_transaction ≡ false }
    ensures open { IsTrue (state S.Store connection.new).is_open
        → IsTrue (state S.Store connection.old).is_open }
    ensures free { MigratesToFree S.Store connection.old connection.new result }
    ensures cause { FailsMigrating S.Store connection.old connection.new result }
    ensures left { FallsBack (state S.Store connection.old) (state S.Store connection.new) result }
{
    let values = hash_files(connection, alloc, watch)?;
    upgrade(connection, values.as_slice())
}
