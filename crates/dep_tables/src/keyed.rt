//! Statements whose one parameter is a number.

ghost use Rattle.std.specs.Prelude.{⊤, ◌^◌, ◌<◌, ℕ, ◌∷◌, [], All, map, pos};
ghost use Rattle.std.specs.Option.{option_to_list};
ghost use Rattle.sqlite.specs.declared.types.Value.TheVariants.{Int};
ghost use Rattle.dep_tables.specs.Tables.{Tables};
ghost use Rattle.dep_tables.specs.Rows.{HasKinds};
ghost use Rattle.dep_tables.specs.Clauses.{AtMostOne, Makes, Writes, AsksWhere};
ghost use Rattle.dep_tables.specs.Statements.{by_key};

use crate::calls::Statements;
use crate::numbers::{LIMIT, key_param};
use crate::reading::{FromRow, ask_all, ask_one};
use dep_types::StoreFault;
use std::alloc::Global;

/// Runs a statement that shows no rows. A number of 2^63 or more is a fault of the store.
pub(crate) fn run_by_key<T: Statements>(tx: &mut T, sql: &str, key: u64) -> Result<(), StoreFault>
    ensures { (change : ℕ → Tables → Tables)
        → Makes (T.state tx.old) (T.state tx.new) (by_key sql.now change key)
        → Writes T.lenders T.state tx.old tx.new result (by_key sql.now change key) }
{
    if key >= LIMIT {
        return Err(StoreFault::Store);
    }
    tx.run(sql, &key_param(key))
}

/// Runs a query, and returns what its one row represents, if it shows one. A number of 2^63 or more is a fault
/// of the store.
pub(crate) fn ask_one_by_key<T: Statements, R: FromRow>(
    tx: &mut T,
    sql: &str,
    key: u64,
) -> Result<Option<R>, StoreFault>
    ensures { AsksWhere T.lenders T.state tx.old tx.new result (key < 2 ^ 63) sql.now
        (Int (pos key) ∷ []) R.width (λ found. map R.values (option_to_list found)) R.copies
        (AtMostOne (HasKinds R.columns)) }
{
    if key >= LIMIT {
        return Err(StoreFault::Store);
    }
    ask_one(tx, sql, &key_param(key))
}

/// Runs a query, and returns what each of its rows represents. A number of 2^63 or more is a fault of the store.
pub(crate) fn ask_all_by_key<T: Statements, R: FromRow + Drop>(
    tx: &mut T,
    alloc: Global,
    sql: &str,
    key: u64,
) -> Result<Vec<R>, StoreFault>
    ensures { AsksWhere T.lenders T.state tx.old tx.new result (key < 2 ^ 63) sql.now
        (Int (pos key) ∷ []) R.width (λ found. map R.values found.items) ⊤
        (All (HasKinds R.columns)) }
{
    if key >= LIMIT {
        return Err(StoreFault::Store);
    }
    ask_all(tx, alloc, sql, &key_param(key))
}
