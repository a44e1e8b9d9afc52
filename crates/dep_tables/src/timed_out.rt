//! The numbers of the uploads that timed out.

ghost use Rattle.std.specs.Prelude.{is_some};
ghost use Rattle.dep_tables.specs.Edits.{LacksTimedOut};
ghost use Rattle.dep_tables.specs.Clauses.{Shows, Writes, Queries};
ghost use Rattle.dep_tables.specs.Statements.{insertion_of_timed_out, query_of_timed_out};

use crate::calls::Statements;
use crate::keyed::ask_one_by_key;
use crate::numbers::{LIMIT, key_param};
use dep_types::StoreFault;

/// Adds a number. It is a fault of the store where it is there, and where it is 2^63 or more.
pub fn insert_timed_out<T: Statements>(tx: &mut T, upload: u64) -> Result<(), StoreFault>
    ensures does { Writes T.lenders T.state tx.old tx.new result (insertion_of_timed_out upload) }
    ensures free { Shows (T.state tx.old) (T.state tx.new) result (LacksTimedOut upload) }
{
    if upload >= LIMIT {
        return Err(StoreFault::Store);
    }
    tx.run(
        "INSERT INTO timed_out (upload) VALUES (?1)",
        &key_param(upload),
    )
}

fn find_number<T: Statements>(tx: &mut T, upload: u64) -> Result<Option<u64>, StoreFault>
    ensures does { Queries T.lenders T.state tx.old tx.new result (query_of_timed_out is_some upload) }
{
    ask_one_by_key(tx, "SELECT upload FROM timed_out WHERE upload = ?1", upload)
}

/// Whether the number is there. A number of 2^63 or more is a fault of the store.
pub fn find_timed_out<T: Statements>(tx: &mut T, upload: u64) -> Result<bool, StoreFault>
    ensures does { Queries T.lenders T.state tx.old tx.new result (query_of_timed_out (λ found. found) upload) }
{
    let found = find_number(tx, upload)?;
    Ok(found.is_some())
}
