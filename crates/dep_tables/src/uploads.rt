//! The rows of the staged uploads.

ghost use Rattle.std.specs.Prelude.{◌≡◌, ◌↔◌, IsTrue};
ghost use Rattle.sqlite.specs.Values.{bound};
ghost use Rattle.dep_tables.specs.Rows.{IsStorableUpload, columns_of_upload, upload_values};
ghost use Rattle.dep_tables.specs.Edits.{LacksUploadRow};
ghost use Rattle.dep_tables.specs.Clauses.{Shows, Writes, Queries};
ghost use Rattle.dep_tables.specs.Statements.{insertion_of_upload, update_of_upload, deletion_of_upload, query_of_upload, query_of_next_upload, query_of_left_upload};

use crate::calls::Statements;
use crate::columns::ColumnKind::{self, Number, Sha256OrNull};
use crate::keyed::{ask_one_by_key, run_by_key};
use crate::numbers::{LIMIT, number, number_at};
use crate::reading::FromRow;
use crate::texts::{digest_or_null, digest_or_null_at};
use dep_types::{StoreFault, UploadRow};
use sqlite::Row;
use sqlite::types::ValueRef;
use std::alloc::AllocError;

/// An upload as its row has it: a SHA-512 that was promised of it has a table of its own.
#[derive(Clone, Copy)]
pub struct UploadColumns {
    /// The upload's number.
    pub upload: u64,
    /// How many bytes the whole has.
    pub size: u64,
    /// In how many segments it comes.
    pub count: u64,
    /// How many bytes each segment but the last has.
    pub segment_size: u64,
    /// The SHA-256 that was promised of the whole.
    pub sha256: Option<[u8; 32]>,
    /// The moment of the last segment, or of the opening, in seconds of Unix time.
    pub last: u64,
}

impl UploadColumns {
    /// The columns of this row: all of it but the SHA-512 that was promised.
    pub fn of_row(row: &UploadRow) -> UploadColumns
        ensures { result ≡ columns_of_upload row.now }
    {
        UploadColumns {
            upload: row.upload,
            size: row.size,
            count: row.count,
            segment_size: row.segment_size,
            sha256: row.sha256,
            last: row.last,
        }
    }
}

/// An upload, and when it was last written to.
#[derive(Clone, Copy)]
pub struct LeftUpload {
    /// Its number.
    pub upload: u64,
    /// In seconds of Unix time.
    pub last: u64,
}

fn is_storable_upload(row: &UploadColumns) -> bool
    ensures { IsTrue result ↔ IsStorableUpload row.now }
{
    row.upload < LIMIT
        && row.size < LIMIT
        && row.count < LIMIT
        && row.segment_size < LIMIT
        && row.last < LIMIT
}

fn upload_params(row: &UploadColumns) -> [ValueRef<'_>; 6]
    requires { IsStorableUpload row.now }
    ensures { bound result ≡ upload_values row.now }
{
    [
        ValueRef::Int(number(row.upload)),
        ValueRef::Int(number(row.size)),
        ValueRef::Int(number(row.count)),
        ValueRef::Int(number(row.segment_size)),
        digest_or_null(&row.sha256),
        ValueRef::Int(number(row.last)),
    ]
}

/// Adds a row. It is a fault of the store where there is a row of this key, and where a number is 2^63 or more.
pub fn insert_upload<T: Statements>(tx: &mut T, row: &UploadColumns) -> Result<(), StoreFault>
    ensures does { Writes T.lenders T.state tx.old tx.new result (insertion_of_upload row.now) }
    ensures free { Shows (T.state tx.old) (T.state tx.new) result (LacksUploadRow row.now.upload) }
{
    if !is_storable_upload(row) {
        return Err(StoreFault::Store);
    }
    tx.run(
        "INSERT INTO uploads (upload, size, count, segment_size, sha256, last) VALUES (?1, ?2, ?3, ?4, ?5, ?6)",
        &upload_params(row),
    )
}

/// Sets the row of this key, if there is one. A number of 2^63 or more is a fault of the store.
pub fn write_upload<T: Statements>(tx: &mut T, row: &UploadColumns) -> Result<(), StoreFault>
    ensures does { Writes T.lenders T.state tx.old tx.new result (update_of_upload row.now) }
{
    if !is_storable_upload(row) {
        return Err(StoreFault::Store);
    }
    tx.run(
        "UPDATE uploads SET size = ?2, count = ?3, segment_size = ?4, sha256 = ?5, last = ?6 WHERE upload = ?1",
        &upload_params(row),
    )
}

/// Deletes the row of this key, if there is one. A number of 2^63 or more is a fault of the store.
pub fn delete_upload<T: Statements>(tx: &mut T, upload: u64) -> Result<(), StoreFault>
    ensures does { Writes T.lenders T.state tx.old tx.new result (deletion_of_upload upload) }
{
    run_by_key(tx, "DELETE FROM uploads WHERE upload = ?1", upload)
}

impl FromRow for UploadColumns {
    ghost use Rattle.dep_tables.specs.Rows.{upload_values, upload_kinds};

    ghost width = { 6 };

    ghost values = { upload_values };

    ghost columns = { upload_kinds };

    ghost copies = { ⊥ };

    fn kinds() -> &'static [ColumnKind] {
        &[Number, Number, Number, Number, Sha256OrNull, Number]
    }

    fn from_row(row: &Row) -> Result<UploadColumns, AllocError> {
        Ok(UploadColumns {
            upload: number_at(row, 0),
            size: number_at(row, 1),
            count: number_at(row, 2),
            segment_size: number_at(row, 3),
            sha256: digest_or_null_at(row, 4),
            last: number_at(row, 5),
        })
    }
}

/// Returns the row of this key, if there is one. It is a fault of the store where the row is not one that
/// `insert_upload` writes, and for a number of 2^63 or more.
pub fn find_upload<T: Statements>(
    tx: &mut T,
    upload: u64,
) -> Result<Option<UploadColumns>, StoreFault>
    ensures does { Queries T.lenders T.state tx.old tx.new result (query_of_upload upload) }
{
    ask_one_by_key(
        tx,
        "SELECT upload, size, count, segment_size, sha256, last FROM uploads WHERE upload = ?1",
        upload,
    )
}

/// Returns the least number of an upload above this one, if there is one. A number of 2^63 or more is a fault
/// of the store.
pub fn next_upload<T: Statements>(tx: &mut T, after: u64) -> Result<Option<u64>, StoreFault>
    ensures does { Queries T.lenders T.state tx.old tx.new result (query_of_next_upload after) }
{
    ask_one_by_key(
        tx,
        "SELECT upload FROM uploads WHERE upload > ?1 ORDER BY upload LIMIT 1",
        after,
    )
}

impl FromRow for LeftUpload {
    ghost use Rattle.dep_tables.specs.Rows.{left_values, left_kinds};

    ghost width = { 2 };

    ghost values = { left_values };

    ghost columns = { left_kinds };

    ghost copies = { ⊥ };

    fn kinds() -> &'static [ColumnKind] {
        &[Number, Number]
    }

    fn from_row(row: &Row) -> Result<LeftUpload, AllocError> {
        Ok(LeftUpload {
            upload: number_at(row, 0),
            last: number_at(row, 1),
        })
    }
}

/// Returns, of the uploads that were last written to before this moment (in seconds of Unix time), the one
/// that was left the longest, with the least number of several, or `None` where there is none. It is a fault
/// of the store where the row is not one of two numbers, and for a moment of 2^63 or more.
pub fn left_before<T: Statements>(tx: &mut T, moment: u64) -> Result<Option<LeftUpload>, StoreFault>
    ensures does { Queries T.lenders T.state tx.old tx.new result (query_of_left_upload moment) }
{
    ask_one_by_key(
        tx,
        "SELECT upload, last FROM uploads WHERE last < ?1 ORDER BY last, upload LIMIT 1",
        moment,
    )
}
