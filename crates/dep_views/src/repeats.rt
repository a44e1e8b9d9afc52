//! A segment that is sent, beside what was received before.

ghost use Rattle.std.specs.Prelude.{◌≡◌, ℕ, Bool, false, List, map, None, Some, IfOk, IsTrue};
ghost use Rattle.std.specs.FinMap as finmap;
ghost use Rattle.dep_types.specs.State.{State};
ghost use Rattle.dep_types.specs.Sound.{IsSound};
ghost use Rattle.dep_operations.specs.Views.{touched_repeat, upload_undigested};
ghost use Rattle.dep_row_maps.specs.TablesAre.{segments_at};
ghost use Rattle.dep_row_maps.specs.Clauses.{MayFind};
ghost use Rattle.dep_views.specs.Seen.{AreViewsOf, state_seen};

use dep_fixity::HashedOctets;
use dep_operations::{SegmentId, Touched, UploadState, UploadView};
use dep_staging::compare_segment;
use dep_tables::Statements;
use dep_types::StoreFault;

// Whether the upload isn't there, or comes in fewer segments.
fn comes_in_fewer(state: &UploadState, number: u64) -> bool
    ensures lacks { IsTrue result → (s : State) (by_reference : Bool) (u : ℕ) → IsSound s
        → state.now ≡ state_seen by_reference s u
        → finmap.get (segments_at s.uploads u) number ≡ None }
{
    match state {
        UploadState::Live(live) => number > live.row.count,
        UploadState::TimedOut => true,
        UploadState::Unknown => true,
    }
}

// Whether the one upload that was looked at is the segment's, and can't have it.
fn lacks_segment(views: &[UploadView], id: SegmentId) -> bool
    ensures lacks { IsTrue result → (s : State) (refers : Bool) (uploads : List ℕ) → IsSound s
        → views.now ≡ map (upload_undigested refers s) uploads
        → finmap.get (segments_at s.uploads id.upload) id.number ≡ None }
{
    match views {
        [view] => view.upload == id.upload && comes_in_fewer(&view.state, id.number),
        _ => false,
    }
}

/// Where the segment that is touched was received before, whether its bytes are the content. They are
/// read block by block, up to the first that differs, and none of them where its upload, which was
/// looked at before, can't have it.
pub(crate) fn load_repeat<T: Statements>(
    tx: &mut T,
    content: &HashedOctets,
    touched: &Touched,
    views: &[UploadView],
) -> Result<Option<bool>, StoreFault>
    ensures map { MayFind T.lenders T.state tx.old tx.new result
        (λ s. IsSound s → AreViewsOf s touched.now views.now
        → IfOk result (λ repeats. repeats ≡ touched_repeat s content.now touched.now)) }
{
    let Some(id) = touched.segment else {
        return Ok(None);
    };
    if lacks_segment(views, id) {
        return Ok(None);
    }
    compare_segment(tx, id.upload, id.number, content)
}
