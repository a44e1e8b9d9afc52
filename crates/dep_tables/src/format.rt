//! The version of the tables.

ghost use Rattle.dep_tables.specs.Clauses.{Writes};
ghost use Rattle.dep_tables.specs.Statements.{update_of_version};

use crate::calls::Statements;
use dep_types::StoreFault;

/// Sets the version of the tables to 2 in the one row that `format` has, of key 1, if it is there.
pub fn write_version<T: Statements>(tx: &mut T) -> Result<(), StoreFault>
    ensures does { Writes T.lenders T.state tx.old tx.new result update_of_version }
{
    tx.run("UPDATE format SET version = 2 WHERE id = 1", &[])
}
