//! The digests of what the segments of an upload make, taken one block at a time, and ahead.

ghost use Rattle.std.specs.Prelude.{◌≡◌, IfOk, IsTrue};
ghost use Rattle.dep_types.specs.Sound.{IsSound};
ghost use Rattle.dep_row_maps.specs.Clauses.{MayReadOver, ReadsOver};
ghost use Rattle.dep_staging.specs.Hashing.{AreDigestsOfUpload};
ghost use Rattle.dep_staging.specs.HashedAhead.{AreRunning, HasGoneOn, Hashes, IsRunning};

use crate::blocks::stored_block;
use crate::running::{RunningHash, RunningHashes};
use dep_fixity::Digests;
use dep_tables::{Statements, UploadColumns, find_upload, next_upload};
use dep_types::{StoreFault, UploadRow};

/// How many blocks are hashed ahead at once.
const BLOCKS_AHEAD: u64 = 4;

// Hashes one more block of an upload, and returns whether there was one that was not hashed.
fn hash_block<T: Statements>(tx: &mut T, run: &mut RunningHash) -> Result<bool, StoreFault>
    ensures does { ReadsOver T.lenders T.state tx.old tx.new result
        (λ s. IsSound s → IsRunning s run.old → HasGoneOn s run.old run.new) }
{
    let number = run.segments.saturating_add(1);
    match stored_block(tx, run.upload, number, run.blocks)? {
        Some(block) => run.take(block.as_slice()),
        None => {
            if run.blocks == 0 {
                return Ok(false);
            }
            run.end_segment();
        }
    }
    Ok(true)
}

// Hashes so many blocks of an upload, as far as no segment is missing, and returns how many of them
// weren't there: none where more may be left.
fn hash_blocks<T: Statements>(
    tx: &mut T,
    run: &mut RunningHash,
    most: u64,
) -> Result<u64, StoreFault>
    ensures does { MayReadOver T.lenders T.state tx.old tx.new result
        (λ s. IsSound s → IsRunning s run.old → HasGoneOn s run.old run.new) }
{
    for hashed in 0..most {
        if !hash_block(tx, run)? {
            return Ok(most - hashed);
        }
    }
    Ok(0)
}

// The same of the upload of this row, and keeps how far it was hashed, whatever is returned.
fn hash_on<T: Statements>(
    tx: &mut T,
    running: &mut RunningHashes,
    row: &UploadColumns,
    most: u64,
) -> Result<u64, StoreFault>
    ensures does { MayReadOver T.lenders T.state tx.old tx.new result
        (λ s. IsSound s → AreRunning s running.old → AreRunning s running.new) }
{
    let mut run = running.take(row.upload);
    let hashed = hash_blocks(tx, &mut run, most);
    run.is_whole = run.segments == row.count;
    running.put(run);
    hashed
}

// Hashes all blocks of an upload that are left, as far as no segment is missing, and returns whether
// all of it was hashed, which comes in so many segments. Where it was before, nothing is read.
fn hash_rest<T: Statements>(
    tx: &mut T,
    run: &mut RunningHash,
    count: u64,
) -> Result<bool, StoreFault>
    ensures does { MayReadOver T.lenders T.state tx.old tx.new result
        (λ s. IsSound s → IsRunning s run.old → HasGoneOn s run.old run.new) }
    ensures whole { IfOk result (λ is_whole. IsTrue is_whole → run.new.segments ≡ count) }
    ensures asks_nothing { run.old.segments ≡ count → tx.new ≡ tx.old }
{
    if run.segments == count {
        return Ok(true);
    }
    hash_blocks(tx, run, u64::MAX)?;
    Ok(run.segments == count)
}

/// Returns the SHA-256 and the SHA-512 (FIPS 180-4) of the assembled bytes of the upload of this row, none of whose
/// segments is missing, and keeps how far it was hashed, whatever is returned. What was hashed before isn't read again;
/// each other block is read once for both, one at a time. A missing segment is a fault of the store.
pub fn hash_upload<T: Statements>(
    tx: &mut T,
    running: &mut RunningHashes,
    row: &UploadRow,
) -> Result<Digests, StoreFault>
    ensures does { MayReadOver T.lenders T.state tx.old tx.new result
        (λ s. Hashes s running.old running.new (IfOk result (AreDigestsOfUpload s row.now))) }
{
    let mut run = running.take(row.upload);
    let hashed = hash_rest(tx, &mut run, row.count);
    let digests = run.hasher.copied().finish();
    running.put(run);
    let is_whole = hashed?;
    if !is_whole {
        return Err(StoreFault::Store);
    }
    Ok(digests)
}

/// Hashes at most so many blocks of an upload, and keeps how far it was hashed, whatever is returned:
/// how many of these blocks weren't needed to hash all of it, none where more may be left. It is
/// `None` where the upload can't be hashed whole: it isn't there, or lacks a segment, or there is no
/// memory to keep how far it was hashed. No row of a segment is read, and nothing of an upload that
/// a call of this one hashed whole. A number of 2^63 or more is a fault of the store.
pub fn hash_some<T: Statements>(
    tx: &mut T,
    running: &mut RunningHashes,
    upload: u64,
    most: u64,
) -> Result<Option<u64>, StoreFault>
    ensures does { MayReadOver T.lenders T.state tx.old tx.new result
        (λ s. IsSound s → AreRunning s running.old → AreRunning s running.new) }
{
    if running.was_whole(upload) {
        return Ok(Some(most));
    }
    let Some(row) = find_upload(tx, upload)? else {
        return Ok(None);
    };
    let left = hash_on(tx, running, &row, most)?;
    Ok(left_of(running, &row, left))
}

// How many blocks weren't there, if all others of the upload were hashed, or more of them can be.
fn left_of(running: &RunningHashes, row: &UploadColumns, left: u64) -> Option<u64> {
    if running.is_hashed_whole(row.upload, row.count) {
        return Some(left);
    }
    if left == 0 && running.is_kept(row.upload) {
        return Some(0);
    }
    None
}

// Notes the next upload of the store since it was opened, and returns whether there is one.
fn note_next<T: Statements>(tx: &mut T, running: &mut RunningHashes) -> Result<bool, StoreFault>
    ensures does { MayReadOver T.lenders T.state tx.old tx.new result
        (λ s. AreRunning s running.old → AreRunning s running.new) }
{
    let Some(number) = running.noted_up_to() else {
        return Ok(false);
    };
    let next = next_upload(tx, number)?;
    running.note_next(next);
    Ok(next.is_some())
}

/// Hashes up to four blocks (256 KiB) of an upload to which a segment came. Where there is none, it notes the next upload
/// that was in the store when it was opened, if not all were noted and there is room for more. Returns whether more may
/// be left. A number of 2^63 or more is a fault of the store.
pub fn hash_ahead<T: Statements>(
    tx: &mut T,
    running: &mut RunningHashes,
) -> Result<bool, StoreFault>
    ensures does { MayReadOver T.lenders T.state tx.old tx.new result
        (λ s. IsSound s → AreRunning s running.old → AreRunning s running.new) }
{
    let Some(mut run) = running.take_due() else {
        return note_next(tx, running);
    };
    let hashed = hash_blocks(tx, &mut run, BLOCKS_AHEAD);
    running.put_back(run, hashed.unwrap_or(0) == 0);
    hashed?;
    Ok(true)
}
