//! The blocks of a segment, or of a part of a file.

ghost use Rattle.std.specs.Prelude.{◌<◌, ◌^◌, OnOk};
ghost use Rattle.dep_row_maps.specs.Clauses.{ReadsMaps};
ghost use Rattle.dep_row_maps.specs.TablesAre.{TablesAre};
ghost use Rattle.dep_tables.specs.Tables.{tables_of};
ghost use Rattle.dep_staging.specs.Comparing.{IsStoredBlock};
ghost use Rattle.dep_staging.specs.FileBlocks.{IsLastOf, IsPartBlock};

use dep_tables::{BlockKey, BlockOwner, BlockPlace, Statements, last_block, read_block};
use dep_types::StoreFault;

/// The number of the first part of a content.
pub(crate) const FIRST_PART: u64 = 1;

/// The block of a segment at this place, if there is one. There is none where the segment was not
/// received. A number of 2^63 or more is a fault of the store.
pub(crate) fn stored_block<T: Statements>(
    tx: &mut T,
    upload: u64,
    segment: u64,
    place: u64,
) -> Result<Option<Vec<u8>>, StoreFault>
    ensures does { ReadsMaps T.lenders T.state tx.old tx.new result
        (λ s. IsStoredBlock s upload segment place) }
    ensures few { OnOk result ((segment < 2 ^ 63) × (place < 2 ^ 63)) }
{
    let owner = BlockOwner::Upload(upload);
    let at = BlockPlace {
        part: segment,
        place,
    };
    read_block(tx, &BlockKey { owner, at })
}

/// The block of a part of a file at this place, if there is one. A number of 2^63 or more is a fault of
/// the store.
pub(crate) fn file_block<T: Statements>(
    tx: &mut T,
    file: u64,
    at: BlockPlace,
) -> Result<Option<Vec<u8>>, StoreFault>
    ensures does { ReadsMaps T.lenders T.state tx.old tx.new result
        (λ s found. (h : TablesAre (tables_of (T.state tx.old)) s) → IsPartBlock h file at found) }
{
    let owner = BlockOwner::File(file);
    read_block(tx, &BlockKey { owner, at })
}

/// The place of the last block of part 1 of a file, if it has one. A number of 2^63 or more is a fault
/// of the store.
pub(crate) fn last_place<T: Statements>(tx: &mut T, file: u64) -> Result<Option<u64>, StoreFault>
    ensures does { ReadsMaps T.lenders T.state tx.old tx.new result
        (λ s found. (h : TablesAre (tables_of (T.state tx.old)) s) → IsLastOf h file 1 found) }
{
    last_block(tx, BlockOwner::File(file), FIRST_PART)
}
