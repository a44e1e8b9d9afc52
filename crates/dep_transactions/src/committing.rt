//! The end of a transaction.

ghost use Rattle.std.specs.Prelude.{◌≡◌, false, OnOk, IfErr};
ghost use Rattle.sqlite.specs.State.{HasCleanDisk, Commits, IsRolledBack, Survives};
ghost use Rattle.sqlite.specs.Held.{state};
ghost use Rattle.dep_transactions.specs.Transactions.{FailsToEnd};

use dep_tables::fault_of;
use dep_types::StoreFault;
use sqlite::{Alter, Transaction};

/// Commits the transaction, which ends whether or not that succeeds.
pub fn commit<S: Alter>(tx: Transaction<'_, S>) -> Result<(), StoreFault>
    ensures ok { HasCleanDisk (state S.Store tx.exit.0.now)
        → OnOk result (Commits (state S.Store tx.entry.conn.now) (state S.Store tx.exit.0.now)) }
    ensures err { HasCleanDisk (state S.Store tx.exit.0.now)
        → IfErr result
        (FailsToEnd (state S.Store tx.entry.conn.now) (state S.Store tx.exit.0.now)) }
    ensures ended { tx.exit.0.now.in_transaction ≡ false }
    ensures survives { Survives (state S.Store tx.entry.conn.now) (state S.Store tx.exit.0.now)
        (λ trees. trees ≡ (state S.Store tx.entry.conn.now).now.trees) }
{
    match tx.commit() {
        Ok(()) => Ok(()),
        Err(error) => Err(fault_of(error)),
    }
}

/// Gives the transaction back, which ends: all that was done in it is undone.
pub fn give_back<S: Alter>(tx: Transaction<'_, S>)
    ensures undone { HasCleanDisk (state S.Store tx.exit.0.now)
        → IsRolledBack (state S.Store tx.entry.conn.now) (state S.Store tx.exit.0.now) }
    ensures ended { tx.exit.0.now.in_transaction ≡ false }
    ensures survives { Survives (state S.Store tx.entry.conn.now) (state S.Store tx.exit.0.now)
        (λ _. ⊥) }
{
    tx.rollback();
}
