//! The row of the clock and the counters.

ghost use Rattle.std.specs.Prelude.{◌≡◌, ◌↔◌, IsTrue};
ghost use Rattle.sqlite.specs.Values.{bound};
ghost use Rattle.dep_tables.specs.Rows.{IsStorableState, state_values};
ghost use Rattle.dep_tables.specs.Clauses.{Writes, Queries};
ghost use Rattle.dep_tables.specs.Statements.{update_of_state, query_of_state};

use crate::calls::Statements;
use crate::columns::ColumnKind::{self, Number};
use crate::numbers::{LIMIT, number, number_at};
use crate::reading::{FromRow, ask_one};
use dep_types::{Counters, StoreFault};
use sqlite::Row;
use sqlite::types::ValueRef;
use std::alloc::AllocError;

/// The clock, a moment in seconds of Unix time, and the numbers to be given next.
#[derive(Clone, Copy)]
pub struct StateRow {
    /// The greatest moment so far, in seconds of Unix time.
    pub clock: u64,
    /// The next number of each kind.
    pub next: Counters,
}

fn is_storable_state(row: &StateRow) -> bool
    ensures { IsTrue result ↔ IsStorableState row.now }
{
    row.clock < LIMIT
        && row.next.object < LIMIT
        && row.next.file < LIMIT
        && row.next.upload < LIMIT
        && row.next.change < LIMIT
}

fn state_params(row: &StateRow) -> [ValueRef<'static>; 5]
    requires { IsStorableState row.now }
    ensures { bound result ≡ state_values row.now }
{
    [
        ValueRef::Int(number(row.clock)),
        ValueRef::Int(number(row.next.object)),
        ValueRef::Int(number(row.next.file)),
        ValueRef::Int(number(row.next.upload)),
        ValueRef::Int(number(row.next.change)),
    ]
}

/// Sets the row, if there is one. A number of 2^63 or more is a fault of the store.
pub fn write_state<T: Statements>(tx: &mut T, row: &StateRow) -> Result<(), StoreFault>
    ensures does { Writes T.lenders T.state tx.old tx.new result (update_of_state row.now) }
{
    if !is_storable_state(row) {
        return Err(StoreFault::Store);
    }
    tx.run(
        "UPDATE state SET clock = ?1, next_object = ?2, next_file = ?3, next_upload = ?4, next_change = ?5 WHERE id = 1",
        &state_params(row),
    )
}

impl FromRow for StateRow {
    ghost use Rattle.dep_tables.specs.Rows.{state_values, state_kinds};

    ghost width = { 5 };

    ghost values = { state_values };

    ghost columns = { state_kinds };

    ghost copies = { ⊥ };

    fn kinds() -> &'static [ColumnKind] {
        &[Number, Number, Number, Number, Number]
    }

    fn from_row(row: &Row) -> Result<StateRow, AllocError> {
        Ok(StateRow {
            clock: number_at(row, 0),
            next: Counters {
                object: number_at(row, 1),
                file: number_at(row, 2),
                upload: number_at(row, 3),
                change: number_at(row, 4),
            },
        })
    }
}

/// Returns the row. It is a fault of the store where there is none, or where it is not one that `write_state`
/// writes.
pub fn read_state<T: Statements>(tx: &mut T) -> Result<StateRow, StoreFault>
    ensures does { Queries T.lenders T.state tx.old tx.new result query_of_state }
{
    let found = ask_one(
        tx,
        "SELECT clock, next_object, next_file, next_upload, next_change FROM state WHERE id = 1",
        &[],
    )?;
    found.ok_or(StoreFault::Store)
}
