//! A transaction of SQLite, lent to what works in one.

use dep_tables::{Statements, fault_of};
use dep_types::StoreFault;
use sqlite::types::ValueRef;
use sqlite::{Alter, Row, Transaction};

/// A transaction, lent to calls that run statements in it.
#[derive(Drop)]
pub struct Lent<'a, 'b, S: Alter> {
    /// The transaction.
    pub tx: &'a mut Transaction<'b, S>,
}

impl<'a, 'b, S: Alter> Statements for Lent<'a, 'b, S> {
    ghost use Rattle.sqlite.specs.Held.{state as shown};

    ghost state = { λ lent. shown S.Store lent.tx.now.conn.now };

    ghost lenders = { λ lent. (lent.tx.ghost_name, lent.tx.now.conn.ghost_name) };

    fn run(&mut self, sql: &str, params: &[ValueRef<'_>]) -> Result<(), StoreFault> {
        match self.tx.execute(sql, params) {
            Ok(_) => Ok(()),
            Err(error) => Err(fault_of(error)),
        }
    }

    fn ask(&mut self, sql: &str, params: &[ValueRef<'_>]) -> Result<Vec<Row>, StoreFault> {
        match self.tx.query_all(sql, params) {
            Ok(rows) => Ok(rows),
            Err(error) => Err(fault_of(error)),
        }
    }
}
