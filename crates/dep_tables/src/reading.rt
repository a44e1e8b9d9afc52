//! What is read from the rows that a query shows.

ghost use Rattle.std.specs.Prelude.{◌≡◌, ⊤, ℕ, List, ◌∷◌, [], pos, All, IfOk, IfErr, OnErr, map};
ghost use Rattle.std.specs.Option.{option_to_list};
ghost use Rattle.sqlite.specs.Order.{Row as Values};
ghost use Rattle.sqlite.specs.declared.types.Value.TheVariants.{Int};
ghost use Rattle.sqlite.specs.State.{HasCleanDisk};
ghost use Rattle.sqlite.specs.Values.{bound};
ghost use Rattle.dep_tables.specs.Rowids.{columns_from};
ghost use Rattle.dep_tables.specs.declared.columns.ColumnKind.{ColumnKind};
ghost use Rattle.dep_tables.specs.Rows.{HasKinds, number_kinds};
ghost use Rattle.dep_tables.specs.Clauses.{AtMostOne, IsFaultAt, FailsWithRows, FailsToRead, ShowsColumns, AsksWithin};

use crate::calls::Statements;
use crate::columns::ColumnKind::{self, Number};
use crate::columns::{has_kinds, have_kinds};
use crate::numbers::number_at;
use dep_types::StoreFault;
use sqlite::Row;
use sqlite::types::ValueRef;
use std::alloc::{AllocError, Global};

/// How many rows a page has at most. Where it has fewer, there are no more.
pub const PAGE_SIZE: usize = 512;

/// What one row represents.
pub(crate) trait FromRow: Sized {
    /// How many columns it has.
    ghost width: { ℕ };

    /// The values of its columns.
    ghost values: { Self → Values };

    /// What its columns hold.
    ghost columns: { List ColumnKind };

    /// Whether reading it takes memory.
    ghost copies: { Type 0 };

    /// What its columns hold.
    fn kinds() -> &'static [ColumnKind]
        ensures { result.now ≡ columns };

    /// What the row represents. An `Err` is lack of memory.
    fn from_row(row: &Row) -> Result<Self, AllocError>
        requires { HasKinds columns row.now }
        ensures reported { IfOk result (λ r. values r ≡ columns_from 0 width row.now) }
        ensures refused { OnErr result copies };
}

impl FromRow for u64 {
    ghost width = { 1 };

    ghost values = { λ n. Int (pos n) ∷ [] };

    ghost columns = { number_kinds };

    ghost copies = { ⊥ };

    fn kinds() -> &'static [ColumnKind] {
        &[Number]
    }

    fn from_row(row: &Row) -> Result<u64, AllocError> {
        Ok(number_at(row, 0))
    }
}

/// Returns what the row represents, if there is one. It is a fault of the store where there are more, and
/// where a column is of another kind.
fn at_most_one<R: FromRow>(rows: &[Row]) -> Result<Option<R>, StoreFault>
    ensures reported { IfOk result
        (λ found. map R.values (option_to_list found) ≡ map (columns_from 0 R.width) rows.now) }
    ensures refused { IfErr result
        (IsFaultAt R.copies (AtMostOne (HasKinds R.columns)) rows.now) }
{
    match rows {
        [] => Ok(None),
        [row] if has_kinds(row, R::kinds()) => Ok(Some(R::from_row(row)?)),
        _ => Err(StoreFault::Store),
    }
}

/// Returns what each row represents. It is a fault of the store where a column of any of them is of another
/// kind.
fn all<R: FromRow + Drop>(alloc: Global, rows: &[Row]) -> Result<Vec<R>, StoreFault>
    ensures reported { IfOk result
        (λ found. map R.values found.items ≡ map (columns_from 0 R.width) rows.now) }
    ensures refused { IfErr result (IsFaultAt ⊤ (All (HasKinds R.columns)) rows.now) }
{
    if !have_kinds(rows, R::kinds()) {
        return Err(StoreFault::Store);
    }
    let mut found = Vec::new(alloc);
    'rows: for row in rows {
        let read = R::from_row(row)?;
        found.push(read)?;
    }
    Ok(found)
}

/// Runs a query, and returns what its one row represents, if it shows one.
pub(crate) fn ask_one<T: Statements, R: FromRow>(
    tx: &mut T,
    sql: &str,
    params: &[ValueRef<'_>],
) -> Result<Option<R>, StoreFault>
    ensures shown { HasCleanDisk (T.state tx.new)
        → IfOk result (λ found. ShowsColumns sql.now (bound params.now)
        (T.state tx.old) (T.state tx.new) R.width (map R.values (option_to_list found))) }
    ensures cause { HasCleanDisk (T.state tx.new)
        → IfErr result (FailsWithRows R.copies (AtMostOne (HasKinds R.columns))
        sql.now (bound params.now) (T.state tx.old) (T.state tx.new)) }
    ensures keeps { AsksWithin T.lenders T.state sql.now tx.old tx.new result }
{
    let rows = tx.ask(sql, params)?;
    at_most_one(rows.as_slice())
}

/// Runs a query, and returns what each of its rows represents.
pub(crate) fn ask_all<T: Statements, R: FromRow + Drop>(
    tx: &mut T,
    alloc: Global,
    sql: &str,
    params: &[ValueRef<'_>],
) -> Result<Vec<R>, StoreFault>
    ensures shown { HasCleanDisk (T.state tx.new)
        → IfOk result (λ found. ShowsColumns sql.now (bound params.now)
        (T.state tx.old) (T.state tx.new) R.width (map R.values found.items)) }
    ensures cause { HasCleanDisk (T.state tx.new)
        → IfErr result (FailsToRead (All (HasKinds R.columns)) sql.now (bound params.now)
        (T.state tx.old) (T.state tx.new)) }
    ensures keeps { AsksWithin T.lenders T.state sql.now tx.old tx.new result }
{
    let rows = tx.ask(sql, params)?;
    all(alloc, rows.as_slice())
}
