//! The rows of an object's metadata, gathered by name.

ghost use Rattle.std.specs.Prelude.{◌≡◌, ◌<◌, ◌^◌, Some, None, IfOk, fold, map as each};
ghost use Rattle.std.specs.FinMap as map;
ghost use Rattle.dep_row_maps.specs.Stored.{with_added_text, listed, grouped};
ghost use Rattle.dep_row_maps.specs.ReadLaws.{pair_of};
ghost use Rattle.dep_row_maps.specs.TablesAre.{metadata_at};
ghost use Rattle.dep_row_maps.specs.Clauses.{Finds};
ghost use Rattle.dep_objects.specs.Texts.{closed};

use dep_tables::{MetadataRow, Statements, metadata_of};
use dep_types::{List, Metadata, StoreFault, Text};
use std::alloc::Global;

// A name with the texts that were read of it.
#[derive(Drop)]
pub(crate) struct NamedTexts {
    name: Text,
    texts: Vec<Text>,
}

// Begins another name. It is a fault of the store where the name was there before, as rows of a name
// stand together.
fn begin(alloc: Global, metadata: &Metadata, row: MetadataRow) -> Result<NamedTexts, StoreFault>
    ensures reported { IfOk result (λ now.
        closed metadata.now (Some now) ≡ with_added_text metadata.now (pair_of row)) }
    ensures name { IfOk result (λ now. now.name ≡ row.name) }
{
    if metadata.get(row.name.as_str()).is_some() {
        drop(row);
        return Err(StoreFault::Store);
    }
    let mut texts = Vec::new(alloc);
    texts.push(row.value)?;
    Ok(NamedTexts {
        name: row.name,
        texts,
    })
}

// Puts the row's text behind those of its name.
fn gather(
    alloc: Global,
    metadata: &mut Metadata,
    last: Option<NamedTexts>,
    row: MetadataRow,
) -> Result<NamedTexts, StoreFault>
    ensures reported { IfOk result (λ now.
        closed metadata.new (Some now) ≡ with_added_text (closed metadata.old last) (pair_of row)) }
    ensures name { IfOk result (λ now. now.name ≡ row.name) }
{
    if let Some(mut last) = last {
        if last.name.as_str() == row.name.as_str() {
            last.texts.push(row.value)?;
            return Ok(last);
        }
        metadata.insert(last.name, List::from_vec(last.texts))?;
    }
    begin(alloc, metadata, row)
}

// Gathers rows behind those that were gathered before, of which this name is the last.
pub(crate) fn gather_rows(
    alloc: Global,
    metadata: &mut Metadata,
    last: Option<NamedTexts>,
    rows: Vec<MetadataRow>,
) -> Result<Option<NamedTexts>, StoreFault>
    ensures reported { IfOk result (λ now. closed metadata.new now
        ≡ fold with_added_text (closed metadata.old last) (each pair_of rows.items)) }
{
    let mut last = last;
    'rows: for row in rows {
        last = Some(gather(alloc, metadata, last, row)?);
    }
    Ok(last)
}

// Puts the texts of the name that was gathered last in their place.
pub(crate) fn close(metadata: &mut Metadata, last: Option<NamedTexts>) -> Result<(), StoreFault>
    ensures { IfOk result (λ _. metadata.new ≡ closed metadata.old last) }
{
    if let Some(last) = last {
        metadata.insert(last.name, List::from_vec(last.texts))?;
    }
    Ok(())
}

fn gathered(alloc: Global, rows: Vec<MetadataRow>) -> Result<Metadata, StoreFault>
    ensures reported { IfOk result (λ metadata. metadata ≡ grouped (each pair_of rows.items)) }
{
    let mut metadata = Metadata::new(alloc);
    let last = gather_rows(alloc, &mut metadata, None, rows)?;
    close(&mut metadata, last)?;
    Ok(metadata)
}

/// The metadata of an object; none where there is no such object. A number of 2^63 or more is a fault
/// of the store.
pub(crate) fn load_metadata<T: Statements>(
    tx: &mut T,
    alloc: Global,
    object: u64,
) -> Result<Metadata, StoreFault>
    ensures does { Finds T.lenders T.state tx.old tx.new result
        (λ s. IfOk result (λ metadata.
        metadata ≡ grouped (listed (metadata_at s.objects object)))) }
{
    gathered(alloc, metadata_of(tx, alloc, object)?)
}
