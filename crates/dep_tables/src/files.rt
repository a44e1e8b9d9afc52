//! The rows of the files.

ghost use Rattle.std.specs.Prelude.{◌≡◌, ◌<◌, ◌^◌, ◌↔◌, ⊤, IsTrue, All, map};
ghost use Rattle.sqlite.specs.Values.{bound};
ghost use Rattle.dep_tables.specs.Rows.{IsStorableFile, file_values, IsFileRow};
ghost use Rattle.dep_tables.specs.FileKeys.{file_key_values, IsStorableFileKey};
ghost use Rattle.dep_tables.specs.Edits.{LacksFileRow};
ghost use Rattle.dep_tables.specs.Clauses.{Shows, Writes, AsksWhere, Queries};
ghost use Rattle.dep_tables.specs.Statements.{insertion_of_file, deletion_of_file, deletion_of_files, query_of_file, query_of_files, query_of_files_page};

use crate::calls::Statements;
use crate::columns::ColumnKind::{self, Flag, Number, Sha256, Text, TextOrNull};
use crate::keyed::{ask_one_by_key, run_by_key};
use crate::numbers::{LIMIT, flag_at, flag_number, number, number_at};
use crate::reading::{FromRow, ask_all};
use crate::texts::{digest_at, text_at, text_or_null, text_or_null_at, text_value};
use dep_types::{FileRow, StoreFault};
use sqlite::Row;
use sqlite::types::ValueRef;
use std::alloc::{AllocError, Global};

fn is_storable_file(row: &FileRow) -> bool
    ensures { IsTrue result ↔ IsStorableFile row.now }
{
    row.file < LIMIT
        && row.object < LIMIT
        && row.size < LIMIT
        && row.tag < LIMIT
        && row.deposited < LIMIT
}

fn file_params(row: &FileRow) -> [ValueRef<'_>; 10]
    requires { IsStorableFile row.now }
    ensures { bound result ≡ file_values row.now }
{
    [
        ValueRef::Int(number(row.file)),
        ValueRef::Int(number(row.object)),
        text_value(&row.name),
        text_value(&row.media),
        ValueRef::Int(number(row.size)),
        ValueRef::Int(number(row.tag)),
        ValueRef::Int(number(row.deposited)),
        text_or_null(&row.behalf),
        ValueRef::Int(flag_number(row.by_reference)),
        ValueRef::Blob(&row.sha256),
    ]
}

/// Adds a row; the SHA-512 has a table of its own. It is a fault of the store where there is a row of this
/// key, and where a number is 2^63 or more.
pub fn insert_file<T: Statements>(tx: &mut T, row: &FileRow) -> Result<(), StoreFault>
    ensures does { Writes T.lenders T.state tx.old tx.new result (insertion_of_file row.now) }
    ensures free { Shows (T.state tx.old) (T.state tx.new) result (LacksFileRow row.now.file) }
{
    if !is_storable_file(row) {
        return Err(StoreFault::Store);
    }
    tx.run(
        "INSERT INTO files (file, object, name, media, size, tag, deposited, behalf, by_reference, sha256) VALUES (?1, ?2, ?3, ?4, ?5, ?6, ?7, ?8, ?9, ?10)",
        &file_params(row),
    )
}

/// Deletes the row of this key, if there is one. A number of 2^63 or more is a fault of the store.
pub fn delete_file<T: Statements>(tx: &mut T, file: u64) -> Result<(), StoreFault>
    ensures does { Writes T.lenders T.state tx.old tx.new result (deletion_of_file file) }
{
    run_by_key(tx, "DELETE FROM files WHERE file = ?1", file)
}

/// Deletes the rows of an object. A number of 2^63 or more is a fault of the store.
pub fn delete_files<T: Statements>(tx: &mut T, object: u64) -> Result<(), StoreFault>
    ensures does { Writes T.lenders T.state tx.old tx.new result (deletion_of_files object) }
{
    run_by_key(tx, "DELETE FROM files WHERE object = ?1", object)
}

impl FromRow for FileRow {
    ghost use Rattle.dep_tables.specs.Rows.{file_values, file_kinds};
    ghost use Rattle.std.specs.Prelude.{⊤};

    ghost width = { 10 };

    ghost values = { file_values };

    ghost columns = { file_kinds };

    ghost copies = { ⊤ };

    fn kinds() -> &'static [ColumnKind] {
        &[
            Number, Number, Text, Text, Number, Number, Number, TextOrNull, Flag, Sha256,
        ]
    }

    fn from_row(row: &Row) -> Result<FileRow, AllocError> {
        Ok(FileRow {
            file: number_at(row, 0),
            object: number_at(row, 1),
            name: text_at(row, 2)?,
            media: text_at(row, 3)?,
            size: number_at(row, 4),
            tag: number_at(row, 5),
            deposited: number_at(row, 6),
            behalf: text_or_null_at(row, 7)?,
            by_reference: flag_at(row, 8),
            sha256: digest_at(row, 9),
        })
    }
}

/// Returns the row of this key, if there is one. It is a fault of the store where the row is not one that
/// `insert_file` writes, and for a number of 2^63 or more.
pub fn find_file<T: Statements>(tx: &mut T, file: u64) -> Result<Option<FileRow>, StoreFault>
    ensures does { Queries T.lenders T.state tx.old tx.new result (query_of_file file) }
{
    ask_one_by_key(
        tx,
        "SELECT file, object, name, media, size, tag, deposited, behalf, by_reference, sha256 FROM files WHERE file = ?1",
        file,
    )
}

fn file_key_params(object: u64, from: u64) -> [ValueRef<'static>; 2]
    requires object { object < 2 ^ 63 }
    requires from { from < 2 ^ 63 }
    ensures { bound result ≡ file_key_values object from }
{
    [ValueRef::Int(number(object)), ValueRef::Int(number(from))]
}

fn ask_files<T: Statements>(
    tx: &mut T,
    alloc: Global,
    sql: &str,
    object: u64,
    from: u64,
) -> Result<Vec<FileRow>, StoreFault>
    ensures { AsksWhere T.lenders T.state tx.old tx.new result (IsStorableFileKey object from) sql.now
        (file_key_values object from) 10 (λ found. map file_values found.items) ⊤ (All IsFileRow) }
{
    if object >= LIMIT || from >= LIMIT {
        return Err(StoreFault::Store);
    }
    ask_all(tx, alloc, sql, &file_key_params(object, from))
}

/// Returns the rows of an object from this key on, by ascending key. It is a fault of the store where one is
/// not one that `insert_file` writes, and for a number of 2^63 or more.
pub fn files_of<T: Statements>(
    tx: &mut T,
    alloc: Global,
    object: u64,
    from: u64,
) -> Result<Vec<FileRow>, StoreFault>
    ensures does { Queries T.lenders T.state tx.old tx.new result (query_of_files object from) }
{
    ask_files(
        tx,
        alloc,
        "SELECT file, object, name, media, size, tag, deposited, behalf, by_reference, sha256 FROM files WHERE object = ?1 AND file >= ?2 ORDER BY file",
        object,
        from,
    )
}

/// Returns at most 512 rows: the first of an object from this key on, by ascending key. It is a fault of the
/// store where one is not one that `insert_file` writes, and for a number of 2^63 or more.
pub fn files_page<T: Statements>(
    tx: &mut T,
    alloc: Global,
    object: u64,
    from: u64,
) -> Result<Vec<FileRow>, StoreFault>
    ensures does { Queries T.lenders T.state tx.old tx.new result (query_of_files_page object from) }
{
    ask_files(
        tx,
        alloc,
        "SELECT file, object, name, media, size, tag, deposited, behalf, by_reference, sha256 FROM files WHERE object = ?1 AND file >= ?2 ORDER BY file LIMIT 512",
        object,
        from,
    )
}
