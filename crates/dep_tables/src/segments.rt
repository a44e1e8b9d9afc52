//! The rows of the segments of staged uploads.

ghost use Rattle.std.specs.Prelude.{◌≡◌, ◌↔◌, IsTrue};
ghost use Rattle.sqlite.specs.Values.{bound};
ghost use Rattle.dep_tables.specs.Rows.{IsStorableSegment, segment_values};
ghost use Rattle.dep_tables.specs.Edits.{LacksSegmentRow};
ghost use Rattle.dep_tables.specs.Clauses.{Shows, Writes, Queries};
ghost use Rattle.dep_tables.specs.Statements.{insertion_of_segment, deletion_of_segments, query_of_segments};

use crate::calls::Statements;
use crate::columns::ColumnKind::{self, Number};
use crate::keyed::{ask_all_by_key, run_by_key};
use crate::numbers::{LIMIT, number, number_at};
use crate::reading::FromRow;
use dep_types::StoreFault;
use sqlite::Row;
use sqlite::types::ValueRef;
use std::alloc::{AllocError, Global};

/// A segment that was received, less its bytes.
#[derive(Clone, Copy)]
pub struct SegmentRow {
    /// The number of the upload.
    pub upload: u64,
    /// From 1 to the count of the upload.
    pub number: u64,
    /// How many bytes it has.
    pub size: u64,
}

fn is_storable_segment(row: &SegmentRow) -> bool
    ensures { IsTrue result ↔ IsStorableSegment row.now }
{
    row.upload < LIMIT && row.number < LIMIT && row.size < LIMIT
}

fn segment_params(row: &SegmentRow) -> [ValueRef<'static>; 3]
    requires { IsStorableSegment row.now }
    ensures { bound result ≡ segment_values row.now }
{
    [
        ValueRef::Int(number(row.upload)),
        ValueRef::Int(number(row.number)),
        ValueRef::Int(number(row.size)),
    ]
}

/// Adds a row. It is a fault of the store where there is a row of this upload and number, and where a number
/// is 2^63 or more.
pub fn insert_segment<T: Statements>(tx: &mut T, row: &SegmentRow) -> Result<(), StoreFault>
    ensures does { Writes T.lenders T.state tx.old tx.new result (insertion_of_segment row.now) }
    ensures free { Shows (T.state tx.old) (T.state tx.new) result (LacksSegmentRow row.now) }
{
    if !is_storable_segment(row) {
        return Err(StoreFault::Store);
    }
    tx.run(
        "INSERT INTO segments (upload, number, size) VALUES (?1, ?2, ?3)",
        &segment_params(row),
    )
}

/// Deletes the rows of an upload. A number of 2^63 or more is a fault of the store.
pub fn delete_segments<T: Statements>(tx: &mut T, upload: u64) -> Result<(), StoreFault>
    ensures does { Writes T.lenders T.state tx.old tx.new result (deletion_of_segments upload) }
{
    run_by_key(tx, "DELETE FROM segments WHERE upload = ?1", upload)
}

impl FromRow for SegmentRow {
    ghost use Rattle.dep_tables.specs.Rows.{segment_values, segment_kinds};

    ghost width = { 3 };

    ghost values = { segment_values };

    ghost columns = { segment_kinds };

    ghost copies = { ⊥ };

    fn kinds() -> &'static [ColumnKind] {
        &[Number, Number, Number]
    }

    fn from_row(row: &Row) -> Result<SegmentRow, AllocError> {
        Ok(SegmentRow {
            upload: number_at(row, 0),
            number: number_at(row, 1),
            size: number_at(row, 2),
        })
    }
}

/// Returns the rows of an upload, by number. It is a fault of the store where one is not one that
/// `insert_segment` writes, and for a number of 2^63 or more.
pub fn segments_of<T: Statements>(
    tx: &mut T,
    alloc: Global,
    upload: u64,
) -> Result<Vec<SegmentRow>, StoreFault>
    ensures does { Queries T.lenders T.state tx.old tx.new result (query_of_segments upload) }
{
    ask_all_by_key(
        tx,
        alloc,
        "SELECT upload, number, size FROM segments WHERE upload = ?1 ORDER BY number",
        upload,
    )
}
