//! The rows of the objects.

ghost use Rattle.std.specs.Prelude.{◌≡◌, ◌↔◌, IsTrue};
ghost use Rattle.sqlite.specs.Values.{bound};
ghost use Rattle.dep_tables.specs.Rows.{IsStorableObject, object_values};
ghost use Rattle.dep_tables.specs.Edits.{LacksObjectRow};
ghost use Rattle.dep_tables.specs.Clauses.{Shows, Writes, Queries};
ghost use Rattle.dep_tables.specs.Statements.{insertion_of_object, update_of_object, deletion_of_object, query_of_object, query_of_next_object};

use crate::calls::Statements;
use crate::columns::ColumnKind::{self, Flag, Number};
use crate::keyed::{ask_one_by_key, run_by_key};
use crate::numbers::{LIMIT, flag_at, flag_number, number, number_at};
use crate::reading::FromRow;
use dep_types::{ObjectRow, StoreFault};
use sqlite::Row;
use sqlite::types::ValueRef;
use std::alloc::AllocError;

fn is_storable_object(row: &ObjectRow) -> bool
    ensures { IsTrue result ↔ IsStorableObject row.now }
{
    row.object < LIMIT
        && row.object_tag < LIMIT
        && row.metadata_tag < LIMIT
        && row.files_tag < LIMIT
        && row.changed < LIMIT
}

fn object_params(row: &ObjectRow) -> [ValueRef<'static>; 6]
    requires { IsStorableObject row.now }
    ensures { bound result ≡ object_values row.now }
{
    [
        ValueRef::Int(number(row.object)),
        ValueRef::Int(flag_number(row.ingested)),
        ValueRef::Int(number(row.object_tag)),
        ValueRef::Int(number(row.metadata_tag)),
        ValueRef::Int(number(row.files_tag)),
        ValueRef::Int(number(row.changed)),
    ]
}

/// Adds a row. It is a fault of the store where there is a row of this key, and where a number is 2^63 or more.
pub fn insert_object<T: Statements>(tx: &mut T, row: &ObjectRow) -> Result<(), StoreFault>
    ensures does { Writes T.lenders T.state tx.old tx.new result (insertion_of_object row.now) }
    ensures free { Shows (T.state tx.old) (T.state tx.new) result (LacksObjectRow row.now.object) }
{
    if !is_storable_object(row) {
        return Err(StoreFault::Store);
    }
    tx.run(
        "INSERT INTO objects (object, ingested, object_tag, metadata_tag, files_tag, changed) VALUES (?1, ?2, ?3, ?4, ?5, ?6)",
        &object_params(row),
    )
}

/// Sets the row of this key, if there is one. A number of 2^63 or more is a fault of the store.
pub fn write_object<T: Statements>(tx: &mut T, row: &ObjectRow) -> Result<(), StoreFault>
    ensures does { Writes T.lenders T.state tx.old tx.new result (update_of_object row.now) }
{
    if !is_storable_object(row) {
        return Err(StoreFault::Store);
    }
    tx.run(
        "UPDATE objects SET ingested = ?2, object_tag = ?3, metadata_tag = ?4, files_tag = ?5, changed = ?6 WHERE object = ?1",
        &object_params(row),
    )
}

/// Deletes the row of this key, if there is one. A number of 2^63 or more is a fault of the store.
pub fn delete_object<T: Statements>(tx: &mut T, object: u64) -> Result<(), StoreFault>
    ensures does { Writes T.lenders T.state tx.old tx.new result (deletion_of_object object) }
{
    run_by_key(tx, "DELETE FROM objects WHERE object = ?1", object)
}

impl FromRow for ObjectRow {
    ghost use Rattle.dep_tables.specs.Rows.{object_values, object_kinds};

    ghost width = { 6 };

    ghost values = { object_values };

    ghost columns = { object_kinds };

    ghost copies = { ⊥ };

    fn kinds() -> &'static [ColumnKind] {
        &[Number, Flag, Number, Number, Number, Number]
    }

    fn from_row(row: &Row) -> Result<ObjectRow, AllocError> {
        Ok(ObjectRow {
            object: number_at(row, 0),
            ingested: flag_at(row, 1),
            object_tag: number_at(row, 2),
            metadata_tag: number_at(row, 3),
            files_tag: number_at(row, 4),
            changed: number_at(row, 5),
        })
    }
}

/// Returns the row of this key, if there is one. It is a fault of the store where the row is not one that
/// `insert_object` writes, and for a number of 2^63 or more.
pub fn find_object<T: Statements>(tx: &mut T, object: u64) -> Result<Option<ObjectRow>, StoreFault>
    ensures does { Queries T.lenders T.state tx.old tx.new result (query_of_object object) }
{
    ask_one_by_key(
        tx,
        "SELECT object, ingested, object_tag, metadata_tag, files_tag, changed FROM objects WHERE object = ?1",
        object,
    )
}

/// Returns the least number of an object above this one, if there is one. A number of 2^63 or more is a fault
/// of the store.
pub fn next_object<T: Statements>(tx: &mut T, after: u64) -> Result<Option<u64>, StoreFault>
    ensures does { Queries T.lenders T.state tx.old tx.new result (query_of_next_object after) }
{
    ask_one_by_key(
        tx,
        "SELECT object FROM objects WHERE object > ?1 ORDER BY object LIMIT 1",
        after,
    )
}
