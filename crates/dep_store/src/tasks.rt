//! What is done in a transaction that is committed.

ghost use Rattle.sqlite.specs.Held.{state};
ghost use Rattle.dep_tables.specs.Tables.{Tables};
ghost use Rattle.dep_store.specs.Tasks.{MakesTables, TransactsIfOpen};

use dep_tables::Statements;
use dep_transactions::{Lent, commit};
use dep_types::StoreFault;
use sqlite::{Alter, Connection};

/// What is done in a transaction, whatever runs the statements.
pub(crate) trait Task {
    /// What is returned of it.
    type Answer: Drop;

    /// What it makes of the tables.
    ghost makes: { Self → Tables → Self.Answer → Tables → Type 0 };

    /// Does it.
    fn run<T: Statements>(&self, tx: &mut T) -> Result<Self::Answer, StoreFault>
        ensures { MakesTables T.lenders T.state tx.old tx.new result (makes self.now) };
}

/// Does it in a transaction of its own, and commits that. It fails where one is under way.
pub(crate) fn transact<S: Alter, K: Task>(
    connection: &mut Connection<S>,
    task: &K,
) -> Result<K::Answer, StoreFault>
    ensures { TransactsIfOpen (state S.Store connection.old) (state S.Store connection.new) result
        (K.makes task.now) }
{
    if !connection.is_autocommit() {
        return Err(StoreFault::Store);
    }
    let mut tx = connection.transaction();
    let answer = task.run(&mut Lent { tx: &mut tx })?;
    commit(tx).and(Ok(answer))
}
