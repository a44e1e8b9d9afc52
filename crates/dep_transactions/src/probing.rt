//! Whether a store is open.

ghost use Rattle.std.specs.Prelude.{◌≡◌, [], false, IsTrue, IfErr, OnOk, codes};
ghost use Rattle.sqlite.specs.State.{HasCleanDisk, IsNotRun};
ghost use Rattle.sqlite.specs.Held.{state};
ghost use Rattle.dep_transactions.specs.Transactions.{FindsOpen, IsRestored};

use dep_tables::fault_of;
use dep_types::StoreFault;
use sqlite::{Alter, Connection, Error};

/// Prepares a statement that reads no table. SQLite refuses it as `Closed` where a fault has shut the store.
pub fn probe<S: Alter>(connection: &mut Connection<S>) -> Result<(), Error>
    requires settled { (state S.Store connection.old).in_transaction ≡ false }
    ensures opened { HasCleanDisk (state S.Store connection.new)
        → OnOk result (IsTrue (state S.Store connection.new).is_open) }
    ensures cause { HasCleanDisk (state S.Store connection.new)
        → IfErr result
        (IsNotRun (state S.Store connection.old) (state S.Store connection.new) (codes "SELECT 1") []) }
    ensures restored { IsRestored (state S.Store connection.old) (state S.Store connection.new) }
{
    let _between = connection.is_autocommit();
    drop(connection.prepare("SELECT 1")?);
    Ok(())
}

/// Fails where the store was shut, or fails itself for it.
pub fn check_open<S: Alter>(connection: &mut Connection<S>) -> Result<(), StoreFault>
    requires settled { (state S.Store connection.old).in_transaction ≡ false }
    ensures { FindsOpen (state S.Store connection.old) (state S.Store connection.new) result }
{
    match probe(connection) {
        Ok(()) => Ok(()),
        Err(error) => Err(fault_of(error)),
    }
}
