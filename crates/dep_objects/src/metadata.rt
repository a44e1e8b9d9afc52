//! The metadata of an object.

ghost use Rattle.std.specs.Prelude.{◌≡◌, ◌<◌, ◌^◌, IfOk, length};
ghost use Rattle.std.specs.FinMap as map;
ghost use Rattle.dep_row_maps.specs.Stored.{text_row, texts_under};
ghost use Rattle.dep_row_maps.specs.TablesAre.{metadata_at};
ghost use Rattle.dep_row_maps.specs.Clauses.{ChangesMaps, ChangesTables, ReadsMaps};
ghost use Rattle.dep_objects.specs.Texts.{with_entry, with_entries, AppendsMetadata, SetsMetadata};

use dep_tables::{LIMIT, MetadataRow, Statements, delete_metadata, insert_metadata, last_text};
use dep_types::{Metadata, MetadataEntry, StoreFault, Text};
use std::alloc::{AllocError, Global};

fn text_row(
    alloc: Global,
    object: u64,
    name: &Text,
    place: u64,
    value: &Text,
) -> Result<MetadataRow, AllocError>
    ensures { IfOk result (λ row. row ≡ text_row object name.now place value.now) }
{
    Ok(MetadataRow {
        object,
        name: Text::copied(alloc, name.as_str())?,
        place,
        value: Text::copied(alloc, value.as_str())?,
    })
}

// Puts in the texts of a name, from this place on.
fn put_texts<T: Statements>(
    tx: &mut T,
    alloc: Global,
    object: u64,
    entry: &MetadataEntry,
    start: u64,
) -> Result<(), StoreFault>
    ensures does { ChangesTables T.lenders T.state tx.old tx.new result
        (with_entry object start entry.now) }
{
    let mut place = start;
    'texts: for text in entry.texts.as_slice() {
        if place >= LIMIT {
            return Err(StoreFault::Store);
        }
        let row = text_row(alloc, object, &entry.name, place, text)?;
        let inserted = insert_metadata(tx, &row);
        drop(row);
        inserted?;
        place += 1;
    }
    Ok(())
}

// Puts in texts where the object has none.
fn put_entries<T: Statements>(
    tx: &mut T,
    alloc: Global,
    object: u64,
    entries: &[MetadataEntry],
) -> Result<(), StoreFault>
    ensures does { ChangesTables T.lenders T.state tx.old tx.new result
        (with_entries object entries.now) }
{
    'entries: for entry in entries {
        put_texts(tx, alloc, object, entry, 0)?;
    }
    Ok(())
}

// How many texts the object has under a name.
fn count_of<T: Statements>(tx: &mut T, object: u64, name: &Text) -> Result<u64, StoreFault>
    ensures does { ReadsMaps T.lenders T.state tx.old tx.new result
        (λ s count. count ≡ length (texts_under (metadata_at s.objects object) name.now)) }
{
    let Some(place) = last_text(tx, object, name)? else {
        return Ok(0);
    };
    if place >= LIMIT {
        return Err(StoreFault::Store);
    }
    Ok(place + 1)
}

/// Gives an object that is there this metadata in place of its own. A number of 2^63 or more is a fault
/// of the store.
pub fn set_metadata<T: Statements>(
    tx: &mut T,
    alloc: Global,
    object: u64,
    metadata: &Metadata,
) -> Result<(), StoreFault>
    ensures does { ChangesMaps T.lenders T.state tx.old tx.new result (SetsMetadata object metadata.now) }
{
    delete_metadata(tx, object)?;
    put_entries(tx, alloc, object, metadata.entries())
}

/// Puts the texts of each name behind those that an object that is there has. A number of 2^63 or more
/// is a fault of the store.
pub fn append_metadata<T: Statements>(
    tx: &mut T,
    alloc: Global,
    object: u64,
    more: &Metadata,
) -> Result<(), StoreFault>
    ensures does { ChangesMaps T.lenders T.state tx.old tx.new result
        (AppendsMetadata object more.now) }
{
    'entries: for entry in more.entries() {
        let start = count_of(tx, object, &entry.name)?;
        put_texts(tx, alloc, object, entry, start)?;
    }
    Ok(())
}
