//! The rows of the objects' metadata.

ghost use Rattle.std.specs.Prelude.{◌≡◌, ◌<◌, ◌^◌, ◌↔◌, IsTrue};
ghost use Rattle.sqlite.specs.Values.{bound};
ghost use Rattle.dep_tables.specs.Rows.{IsStorableMetadata, metadata_values, name_values, text_key_values};
ghost use Rattle.dep_tables.specs.Edits.{LacksMetadataRow};
ghost use Rattle.dep_tables.specs.Clauses.{Shows, Writes, Queries};
ghost use Rattle.dep_tables.specs.Statements.{insertion_of_metadata, deletion_of_metadata, query_of_metadata, query_of_last_text, query_of_texts_from, query_of_texts_from_name};

use crate::calls::Statements;
use crate::columns::ColumnKind::{self, Number};
use crate::keyed::{ask_all_by_key, run_by_key};
use crate::numbers::{LIMIT, number, number_at};
use crate::reading::{FromRow, ask_all, ask_one};
use crate::texts::{text_at, text_value};
use dep_types::{StoreFault, Text};
use sqlite::Row;
use sqlite::types::ValueRef;
use std::alloc::{AllocError, Global};

/// One text of an object's metadata.
#[derive(Drop)]
pub struct MetadataRow {
    /// The number of the object.
    pub object: u64,
    /// The name, as `dc:title`.
    pub name: Text,
    /// The place of the text among those of this name, from 0.
    pub place: u64,
    /// The text.
    pub value: Text,
}

fn is_storable_metadata(row: &MetadataRow) -> bool
    ensures { IsTrue result ↔ IsStorableMetadata row.now }
{
    row.object < LIMIT && row.place < LIMIT
}

fn metadata_params(row: &MetadataRow) -> [ValueRef<'_>; 4]
    requires { IsStorableMetadata row.now }
    ensures { bound result ≡ metadata_values row.now }
{
    [
        ValueRef::Int(number(row.object)),
        text_value(&row.name),
        ValueRef::Int(number(row.place)),
        text_value(&row.value),
    ]
}

/// Adds a row. It is a fault of the store where there is a row of this object, name and place, and where a
/// number is 2^63 or more.
pub fn insert_metadata<T: Statements>(tx: &mut T, row: &MetadataRow) -> Result<(), StoreFault>
    ensures does { Writes T.lenders T.state tx.old tx.new result (insertion_of_metadata row.now) }
    ensures free { Shows (T.state tx.old) (T.state tx.new) result (LacksMetadataRow row.now) }
{
    if !is_storable_metadata(row) {
        return Err(StoreFault::Store);
    }
    tx.run(
        "INSERT INTO metadata (object, name, place, value) VALUES (?1, ?2, ?3, ?4)",
        &metadata_params(row),
    )
}

/// Deletes the rows of an object. A number of 2^63 or more is a fault of the store.
pub fn delete_metadata<T: Statements>(tx: &mut T, object: u64) -> Result<(), StoreFault>
    ensures does { Writes T.lenders T.state tx.old tx.new result (deletion_of_metadata object) }
{
    run_by_key(tx, "DELETE FROM metadata WHERE object = ?1", object)
}

impl FromRow for MetadataRow {
    ghost use Rattle.dep_tables.specs.Rows.{metadata_values, metadata_kinds};
    ghost use Rattle.std.specs.Prelude.{⊤};

    ghost width = { 4 };

    ghost values = { metadata_values };

    ghost columns = { metadata_kinds };

    ghost copies = { ⊤ };

    fn kinds() -> &'static [ColumnKind] {
        &[Number, ColumnKind::Text, Number, ColumnKind::Text]
    }

    fn from_row(row: &Row) -> Result<MetadataRow, AllocError> {
        Ok(MetadataRow {
            object: number_at(row, 0),
            name: text_at(row, 1)?,
            place: number_at(row, 2),
            value: text_at(row, 3)?,
        })
    }
}

/// Returns the rows of an object, by name and place. It is a fault of the store where one is not one that
/// `insert_metadata` writes, and for a number of 2^63 or more.
pub fn metadata_of<T: Statements>(
    tx: &mut T,
    alloc: Global,
    object: u64,
) -> Result<Vec<MetadataRow>, StoreFault>
    ensures does { Queries T.lenders T.state tx.old tx.new result (query_of_metadata object) }
{
    ask_all_by_key(
        tx,
        alloc,
        "SELECT object, name, place, value FROM metadata WHERE object = ?1 ORDER BY name, place",
        object,
    )
}

fn name_params(object: u64, name: &Text) -> [ValueRef<'_>; 2]
    requires { object < 2 ^ 63 }
    ensures { bound result ≡ name_values object name.now }
{
    [ValueRef::Int(number(object)), text_value(name)]
}

/// Returns the place of the last text of a name of an object, if it has one. A number of 2^63 or more is a
/// fault of the store.
pub fn last_text<T: Statements>(
    tx: &mut T,
    object: u64,
    name: &Text,
) -> Result<Option<u64>, StoreFault>
    ensures does { Queries T.lenders T.state tx.old tx.new result (query_of_last_text object name.now) }
{
    if object >= LIMIT {
        return Err(StoreFault::Store);
    }
    ask_one(
        tx,
        "SELECT place FROM metadata WHERE object = ?1 AND name = ?2 ORDER BY place DESC LIMIT 1",
        &name_params(object, name),
    )
}

fn text_key_params(object: u64, name: &Text, place: u64) -> [ValueRef<'_>; 3]
    requires object { object < 2 ^ 63 }
    requires place { place < 2 ^ 63 }
    ensures { bound result ≡ text_key_values object name.now place }
{
    [
        ValueRef::Int(number(object)),
        text_value(name),
        ValueRef::Int(number(place)),
    ]
}

/// Returns at most 512 rows: the first of a name of an object, from a place on, by place. It is a fault of
/// the store where one is not one that `insert_metadata` writes, and for a number of 2^63 or more.
pub fn texts_from<T: Statements>(
    tx: &mut T,
    alloc: Global,
    object: u64,
    name: &Text,
    place: u64,
) -> Result<Vec<MetadataRow>, StoreFault>
    ensures does { Queries T.lenders T.state tx.old tx.new result (query_of_texts_from object name.now place) }
{
    if object >= LIMIT || place >= LIMIT {
        return Err(StoreFault::Store);
    }
    ask_all(
        tx,
        alloc,
        "SELECT object, name, place, value FROM metadata WHERE object = ?1 AND name = ?2 AND place >= ?3 ORDER BY name, place LIMIT 512",
        &text_key_params(object, name, place),
    )
}

/// Returns at most 512 rows: the first of an object from a name on, by name, as bytes are, and place. It is a fault of the store where one is not one that `insert_metadata` writes, and for a number of
/// 2^63 or more.
pub fn texts_from_name<T: Statements>(
    tx: &mut T,
    alloc: Global,
    object: u64,
    name: &Text,
) -> Result<Vec<MetadataRow>, StoreFault>
    ensures does { Queries T.lenders T.state tx.old tx.new result (query_of_texts_from_name object name.now) }
{
    if object >= LIMIT {
        return Err(StoreFault::Store);
    }
    ask_all(
        tx,
        alloc,
        "SELECT object, name, place, value FROM metadata WHERE object = ?1 AND name >= ?2 ORDER BY name, place LIMIT 512",
        &name_params(object, name),
    )
}
