//! The two ways in which a statement runs inside a transaction.

ghost use Rattle.std.specs.Prelude.{ℕ, IsTrue, IfOk, IfErr, OnOk, Ok};
ghost use Rattle.std.specs.Borrow.{GName};
ghost use Rattle.sqlite.specs.State.{State, HasCleanDisk, ExecutesInside, Shown};
ghost use Rattle.sqlite.specs.Values.{bound};
ghost use Rattle.dep_tables.specs.Clauses.{FailsToRun, FailsToAsk, RunsWithin};

use dep_types::StoreFault;
use sqlite::Row;
use sqlite::types::ValueRef;

/// An open transaction, in which statements run. What works in one needs to know no more of SQLite's types.
pub trait Statements {
    /// What the connection shows.
    ghost state: { Self → State };

    /// By which names the transaction and its connection are borrowed.
    ghost lenders: { Self → GName × GName };

    /// Runs a statement that shows no rows.
    fn run(&mut self, sql: &str, params: &[ValueRef<'_>]) -> Result<(), StoreFault>
        ensures runs { HasCleanDisk (state self.new)
            → IsTrue (state self.old).in_transaction
            → OnOk result ((count : ℕ) × ExecutesInside 0 sql.now (bound params.now)
            (state self.old) (state self.new) (Ok count)) }
        ensures cause { HasCleanDisk (state self.new)
            → IsTrue (state self.old).in_transaction
            → IfErr result (FailsToRun sql.now (bound params.now) (state self.old) (state self.new)) }
        ensures keeps { RunsWithin lenders state self.old self.new result };

    /// Runs a query, and returns its rows.
    fn ask(&mut self, sql: &str, params: &[ValueRef<'_>]) -> Result<Vec<Row>, StoreFault>
        ensures shown { HasCleanDisk (state self.new)
            → IfOk result (λ rows. Shown sql.now (bound params.now)
            (state self.old) (state self.new) rows.items) }
        ensures cause { HasCleanDisk (state self.new)
            → IfErr result (FailsToAsk sql.now (bound params.now) (state self.old) (state self.new)) }
        ensures keeps { RunsWithin lenders state self.old self.new result };
}
