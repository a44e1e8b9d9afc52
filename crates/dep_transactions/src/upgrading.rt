//! The tables of version 1 become those of version 2, in one transaction.

ghost use Rattle.std.specs.Prelude.{◌≡◌, false, IsTrue, OnOk, OnErr, IfErr};
ghost use Rattle.sqlite.specs.State.{HasCleanDisk, Survives};
ghost use Rattle.sqlite.specs.Held.{state};
ghost use Rattle.dep_tables.specs.Schema.{our_schema, older_schema};
ghost use Rattle.dep_row_maps.specs.Sha512s.{upgraded};
ghost use Rattle.dep_migrations.specs.Beside.{AreNewNamesFree};
ghost use Rattle.dep_transactions.specs.OpenTables.{IsBack};
ghost use Rattle.dep_transactions.specs.Transactions.{TransactsTo};
ghost use Rattle.dep_transactions.specs.Upgrading.{FailsToUpgrade};

use crate::committing::commit;
use crate::lending::Lent;
use dep_migrations::upgrade_tables;
use dep_tables::FileSha512;
use dep_types::StoreFault;
use sqlite::{Alter, Connection};

/// Turns the tables of version 1 into those of version 2, with these values of its files and none of uploads. A number of
/// a file of 2^63 or more, and two values of one file, are a fault of the store. After a fault, also of the commit, or out of
/// memory the tables are as they were.
pub fn upgrade<S: Alter>(
    connection: &mut Connection<S>,
    values: &[FileSha512],
) -> Result<(), StoreFault>
    requires settled { (state S.Store connection.old).in_transaction ≡ false }
    ensures upgrades { TransactsTo older_schema our_schema
        (state S.Store connection.old) (state S.Store connection.new) result
        (λ t _ after. after ≡ upgraded values.now t) }
    ensures mode { (state S.Store connection.new).in_transaction ≡ false }
    // Whatever tables there are, it goes through only where the names that it adds are free.
    ensures free { HasCleanDisk (state S.Store connection.new)
        → OnOk result (AreNewNamesFree (state S.Store connection.old).now.schema) }
    ensures cause { HasCleanDisk (state S.Store connection.new)
        → IfErr result (FailsToUpgrade S.Store connection.old connection.new values.now) }
    ensures left { IsTrue (state S.Store connection.new).is_open
        → OnErr result (IsBack (state S.Store connection.old) (state S.Store connection.new)) }
    ensures crash { Survives (state S.Store connection.old) (state S.Store connection.new)
        (λ _. AreNewNamesFree (state S.Store connection.old).now.schema) }
{
    let mut tx = connection.transaction();
    upgrade_tables(&mut Lent { tx: &mut tx }, values)?;
    commit(tx)
}
