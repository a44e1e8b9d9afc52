//! A query that only shows, asked outside a transaction, and a number in what it shows.

ghost use Rattle.std.specs.Prelude.{◌≡◌, ◌∷◌, [], ◌<◌, ◌^◌, pos, IfOk, IfErr};
ghost use Rattle.sqlite.specs.Order.{column};
ghost use Rattle.sqlite.specs.Values.{bound};
ghost use Rattle.sqlite.specs.declared.types.Value.TheVariants.{Int};
ghost use Rattle.dep_types.specs.declared.store_fault.StoreFault.TheVariants.{Store};
ghost use Rattle.dep_tables.specs.Rows.{HasAt, IsNumberValue};
ghost use Rattle.dep_schema.specs.Causes.{FailsToAskFor};
ghost use Rattle.dep_schema.specs.Clauses.{OnlyReads, ShowsOver};

use dep_tables::{LIMIT, fault_of};
use dep_types::StoreFault;
use sqlite::types::ValueRef;
use sqlite::{Alter, Connection, Row};

/// A number as the one parameter of a query.
fn key_param(key: u64) -> [ValueRef<'static>; 1]
    requires { key < 2 ^ 63 }
    ensures { bound result ≡ Int (pos key) ∷ [] }
{
    [ValueRef::Int(key as i64)]
}

/// The number in this column of a row, from 0 on. Anything else there is a fault of the store.
pub(crate) fn checked_number_at(row: &Row, at: usize) -> Result<u64, StoreFault>
    ensures reported { IfOk result (λ n. column row.now at ≡ Int (pos n)) }
    ensures refused { IfErr result
        (λ fault. (¬ (HasAt IsNumberValue row.now at)) × (fault ≡ Store)) }
{
    match row.get_ref(at) {
        Ok(ValueRef::Int(n)) if n >= 0 => Ok(n as u64),
        _ => Err(StoreFault::Store),
    }
}

/// All rows of a query for a number. One of 2^63 or more is a fault of the store.
pub(crate) fn ask<S: Alter>(
    connection: &mut Connection<S>,
    sql: &str,
    number: u64,
) -> Result<Vec<Row>, StoreFault>
    requires { OnlyReads sql.now }
    ensures { ShowsOver S.Store connection.old connection.new sql.now (Int (pos number) ∷ [])
        result (FailsToAskFor sql.now number) }
{
    if number >= LIMIT {
        return Err(StoreFault::Store);
    }
    // With `map_err` no proof would know what a failure leaves of the connection.
    match connection.query_all(sql, &key_param(number)) {
        Ok(rows) => Ok(rows),
        Err(error) => Err(fault_of(error)),
    }
}
