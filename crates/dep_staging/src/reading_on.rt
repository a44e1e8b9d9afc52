//! The next bytes of a content, read by the place of a byte.

ghost use Rattle.std.specs.Prelude.{◌≡◌, ◌+◌, ◌*◌, IfOk, IfSome};
ghost use Rattle.dep_tables.specs.Tables.{tables_of};
ghost use Rattle.dep_row_maps.specs.Clauses.{MayReadOver, ReadsMaps};
ghost use Rattle.dep_staging.specs.NextBytes.{AppendsBehind, Counts, CountsTo, Fronts, GrowsAsRead, IsNextIn, IsAtByte};

use crate::blocks::{FIRST_PART, file_block, last_place};
use dep_files::BLOCK_SIZE;
use dep_tables::{BlockPlace, Statements};
use dep_types::StoreFault;
use std::alloc::Global;

/// How many blocks are read at once.
const BLOCKS_AT_ONCE: usize = 4;

/// Where a byte of a file stands.
#[derive(Clone, Copy)]
struct ByteInPart {
    /// The number of the part.
    part: u64,
    /// How many bytes of the part are before it.
    within: u64,
}

// Where the byte behind so many and so many more stands: in part 1, or by the size of all parts.
fn byte_behind(size: Option<u64>, start: u64, more: u64) -> Option<ByteInPart>
    ensures { IfSome result (IsAtByte size (start + more)) }
{
    let behind = start.checked_add(more)?;
    match size {
        None => Some(ByteInPart {
            part: FIRST_PART,
            within: behind,
        }),
        Some(0) => None,
        Some(size) => Some(ByteInPart {
            part: (behind / size).checked_add(1)?,
            within: behind % size,
        }),
    }
}

// Appends what a block has behind so many of its bytes, and returns whether it has any.
fn append_behind(bytes: &mut Vec<u8>, block: &[u8], skip: usize) -> Result<bool, StoreFault>
    ensures { IfOk result (AppendsBehind block.now skip bytes.old.items bytes.new.items) }
{
    if block.len() <= skip {
        return Ok(false);
    }
    match bytes.extend_from_slice(&block[skip..]) {
        Ok(()) => Ok(true),
        Err(_) => Err(StoreFault::Memory),
    }
}

// Appends what the next block has behind the bytes that were read, and returns whether there were any.
fn append_next<T: Statements>(
    tx: &mut T,
    file: u64,
    size: Option<u64>,
    start: u64,
    bytes: &mut Vec<u8>,
) -> Result<bool, StoreFault>
    ensures does { ReadsMaps T.lenders T.state tx.old tx.new result
        (λ s. GrowsAsRead (tables_of (T.state tx.old)) s file size start bytes.old bytes.new) }
{
    let Some(byte) = byte_behind(size, start, bytes.len() as u64) else {
        return Err(StoreFault::Store);
    };
    let at = BlockPlace {
        part: byte.part,
        place: byte.within / BLOCK_SIZE as u64,
    };
    match file_block(tx, file, at)? {
        Some(block) => append_behind(
            bytes,
            block.as_slice(),
            (byte.within % BLOCK_SIZE as u64) as usize,
        ),
        None => Ok(false),
    }
}

// The next bytes behind so many: what up to four blocks have of part 1, or of parts of one size.
fn bytes_by<T: Statements>(
    tx: &mut T,
    alloc: Global,
    file: u64,
    size: Option<u64>,
    start: u64,
) -> Result<Vec<u8>, StoreFault>
    ensures does { MayReadOver T.lenders T.state tx.old tx.new result
        (λ s. IfOk result (Fronts (tables_of (T.state tx.old)) s file size start)) }
{
    let mut bytes = Vec::new(alloc);
    for round in 0..BLOCKS_AT_ONCE {
        if !append_next(tx, file, size, start, &mut bytes)? {
            return Ok(bytes);
        }
    }
    Ok(bytes)
}

// How many bytes a part has whose last block stands at this place, with so many bytes.
fn part_size(last: u64, length: u64) -> Result<u64, StoreFault>
    ensures { IfOk result (λ size. size ≡ last * 65536 + length) }
{
    match last.checked_mul(BLOCK_SIZE as u64) {
        Some(before) => before.checked_add(length).ok_or(StoreFault::Store),
        None => Err(StoreFault::Store),
    }
}

// How many bytes part 1 of a file has, whose last block stands at this place.
fn size_to<T: Statements>(tx: &mut T, file: u64, last: u64) -> Result<u64, StoreFault>
    ensures does { ReadsMaps T.lenders T.state tx.old tx.new result
        (λ s. CountsTo (tables_of (T.state tx.old)) s file last) }
{
    let at = BlockPlace {
        part: FIRST_PART,
        place: last,
    };
    match file_block(tx, file, at)? {
        Some(block) => part_size(last, block.len() as u64),
        None => Err(StoreFault::Store),
    }
}

// How many bytes part 1 of a file has.
fn first_size<T: Statements>(tx: &mut T, file: u64) -> Result<u64, StoreFault>
    ensures does { ReadsMaps T.lenders T.state tx.old tx.new result
        (λ s. Counts (tables_of (T.state tx.old)) s file) }
{
    match last_place(tx, file)? {
        Some(last) => size_to(tx, file, last),
        None => Ok(0),
    }
}

/// The next bytes of the content of a file, behind so many: what up to four blocks have, and none only
/// where the content ends. What is in part 1 is found by its place alone; behind it the place follows from
/// the size of part 1, which all parts have but the last. So no step asks for what is before it. Of a file that
/// isn't there nothing is said. A number of 2^63 or more is a fault of the store.
pub fn next_bytes<T: Statements>(
    tx: &mut T,
    alloc: Global,
    file: u64,
    start: u64,
) -> Result<Vec<u8>, StoreFault>
    ensures does { MayReadOver T.lenders T.state tx.old tx.new result
        (λ s. IfOk result (λ bytes. IsNextIn s file start bytes.items)) }
{
    let first = bytes_by(tx, alloc, file, None, start)?;
    if !first.is_empty() {
        return Ok(first);
    }
    let size = first_size(tx, file)?;
    if size == 0 {
        return Ok(first);
    }
    bytes_by(tx, alloc, file, Some(size), start)
}
