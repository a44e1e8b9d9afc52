//! The segments of an upload, by their rows.

ghost use Rattle.std.specs.Prelude.{◌≡◌, IfOk, map};
ghost use Rattle.dep_types.specs.Sound.{IsSound};
ghost use Rattle.dep_row_maps.specs.Clauses.{MayFind};
ghost use Rattle.dep_staging.specs.HashedAhead.{AreRunning};
ghost use Rattle.dep_views.specs.Seen.{IsWholeAs};

use dep_staging::RunningHashes;
use dep_tables::{SegmentRow, Statements, segments_of};
use dep_types::{List, StoreFault, UploadRow};
use std::alloc::{AllocError, Global};

/// The numbers of these segments, in their order.
pub(crate) fn numbers_of(alloc: Global, segments: &[SegmentRow]) -> Result<List<u64>, AllocError>
    ensures ok { IfOk result (λ numbers. numbers ≡ map (λ segment. segment.number) segments.now) }
{
    let mut numbers = Vec::new(alloc);
    for segment in segments {
        numbers.push(segment.number)?;
    }
    Ok(List::from_vec(numbers))
}

/// Whether the upload of this row lacks no segment. Of one that was hashed whole no row of a segment
/// is read, of another each.
pub(crate) fn is_whole<T: Statements>(
    tx: &mut T,
    alloc: Global,
    running: &RunningHashes,
    row: &UploadRow,
) -> Result<bool, StoreFault>
    ensures map { MayFind T.lenders T.state tx.old tx.new result
        (λ s. IsSound s → AreRunning s running.now → IfOk result (IsWholeAs s row.now)) }
{
    if running.is_hashed_whole(row.upload, row.count) {
        return Ok(true);
    }
    let received = segments_of(tx, alloc, row.upload)?;
    Ok(received.as_slice().len() as u64 == row.count)
}
