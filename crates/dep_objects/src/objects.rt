//! The objects, by number.

ghost use Rattle.std.specs.Prelude.{◌≡◌, ◌<◌, ◌^◌, None, IfOk, OnOk, option_map};
ghost use Rattle.std.specs.FinMap as map;
ghost use Rattle.dep_types.specs.Rows.{object_row};
ghost use Rattle.dep_types.specs.Sound.{IsSound};
ghost use Rattle.dep_row_maps.specs.TablesAre.{files_at, with_object, without_object};
ghost use Rattle.dep_row_maps.specs.Clauses.{FromMaps, SeesState, ChangesMaps, Finds, ReadsMaps, WritesMaps};
ghost use Rattle.dep_row_maps.specs.Stored.{HasRow};
ghost use Rattle.dep_objects.specs.Objects.{IsDescribed, object_of, PutsRow};

use crate::gathering::load_metadata;
use dep_tables::{Statements, delete_metadata, insert_object};
use dep_types::{Metadata, ObjectRow, StoreFault};
use std::alloc::Global;

/// An object without its files.
#[derive(Drop)]
pub struct DescribedObject {
    /// Its row.
    pub row: ObjectRow,
    /// Its metadata.
    pub metadata: Metadata,
}

/// The object of this row, which is there, with its metadata. The row is not read again. A number of 2^63 or more is a
/// fault of the store.
pub fn describe<T: Statements>(
    tx: &mut T,
    alloc: Global,
    row: ObjectRow,
) -> Result<DescribedObject, StoreFault>
    ensures does { Finds T.lenders T.state tx.old tx.new result
        (λ s. IsSound s → HasRow s row → IfOk result (IsDescribed s row.object)) }
{
    let metadata = load_metadata(tx, alloc, row.object)?;
    Ok(DescribedObject { row, metadata })
}

/// Reads an object of the state without its metadata and files: its row, if there is one. A number of 2^63 or more is a
/// fault of the store.
pub fn find_object<T: Statements>(tx: &mut T, object: u64) -> Result<Option<ObjectRow>, StoreFault>
    ensures does { ReadsMaps T.lenders T.state tx.old tx.new result
        (λ s found. found ≡ option_map (object_row object) (map.get s.objects object)) }
{
    dep_tables::find_object(tx, object)
}

/// Adds an object that has no metadata and no files. It is a fault of the store where there is one of this
/// number, and where a number is 2^63 or more.
pub fn add_object<T: Statements>(tx: &mut T, row: &ObjectRow) -> Result<(), StoreFault>
    ensures does { WritesMaps T.lenders T.state tx.old tx.new result
        (λ s becomes. becomes
        (with_object s row.now.object (object_of row.now map.empty map.empty))) }
    ensures free { FromMaps (T.state tx.old) (T.state tx.new)
        (λ s. OnOk result (map.get s.objects row.now.object ≡ None)) }
{
    insert_object(tx, row)
}

/// Puts this row in the place of an object's, which keeps its metadata and files, if there is one of this number. A number
/// of 2^63 or more is a fault of the store.
pub fn put_object<T: Statements>(tx: &mut T, row: &ObjectRow) -> Result<(), StoreFault>
    ensures does { WritesMaps T.lenders T.state tx.old tx.new result
        (PutsRow row.now) }
    ensures absent { FromMaps (T.state tx.old) (T.state tx.new)
        (λ s. map.get s.objects row.now.object ≡ None
        → OnOk result (SeesState (T.state tx.new) s)) }
{
    dep_tables::write_object(tx, row)
}

/// Deletes an object that has no files, with its metadata, if there is one. A number of 2^63 or more is
/// a fault of the store.
pub fn delete_object<T: Statements>(tx: &mut T, object: u64) -> Result<(), StoreFault>
    ensures does { ChangesMaps T.lenders T.state tx.old tx.new result
        (λ s becomes. files_at s.objects object ≡ map.empty → becomes (without_object s object)) }
{
    delete_metadata(tx, object)?;
    dep_tables::delete_object(tx, object)
}
