//! Changes of staged uploads.

ghost use Rattle.std.specs.Prelude.{◌≡◌, ℕ, [], ◌∷◌, IfOk};
ghost use Rattle.dep_decisions.specs.declared.decision.Decision.TheVariants.{Open, Receive};
ghost use Rattle.dep_operations.specs.declared.view.LiveUpload.{LiveUpload};
ghost use Rattle.dep_operations.specs.declared.view.UploadState.TheVariants.{Live};
ghost use Rattle.dep_requests.specs.Clauses.{CarriesOut};

use crate::change::Change;
use dep_fields::Opening;
use dep_operations::{LiveUpload, UploadState, UploadView, View};
use dep_staging::open_upload;
use dep_tables::{SegmentRow, Statements};
use dep_types::{StoreFault, UploadRow};
use dep_uploads::{put_segment, rewrite_upload};

/// An upload begins, under the next number.
pub(crate) fn open<T: Statements>(
    tx: &mut T,
    change: &Change<'_>,
    opening: &Opening,
) -> Result<(), StoreFault>
    ensures map { CarriesOut T.lenders T.state tx.old tx.new result change.now (Open opening.now) }
{
    let view = change.view;
    open_upload(
        tx,
        &UploadRow {
            upload: view.next.upload,
            size: opening.size,
            count: opening.count,
            segment_size: opening.segment_size,
            sha256: opening.digest.sha256,
            sha512: opening.digest.sha512,
            last: view.clock,
        },
    )
}

// The one upload that is touched. That it isn't there is a fault of the store, as the rules let no such request
// through.
fn live_upload(view: &View) -> Result<&LiveUpload, StoreFault>
    ensures reported { IfOk result (λ live. (u : ℕ) (l : LiveUpload)
        → view.now.uploads ≡ record { upload = u; state = Live l } ∷ [] → live.now ≡ l) }
{
    match view.uploads.as_slice() {
        [
            UploadView {
                state: UploadState::Live(live),
                ..
            },
        ] => Ok(live),
        _ => Err(StoreFault::Store),
    }
}

/// The content is received as a segment of the upload that is touched. One that was received before is not
/// written again: the rules let it through only where its bytes are the same.
pub(crate) fn receive<T: Statements>(
    tx: &mut T,
    change: &Change<'_>,
    segment: u64,
) -> Result<(), StoreFault>
    ensures map { (u : ℕ) → CarriesOut T.lenders T.state tx.old tx.new result change.now
        (Receive u segment) }
{
    let live = live_upload(change.view)?;
    let row = UploadRow {
        last: change.view.clock,
        ..live.row
    };
    if change.view.repeats.is_some() {
        return rewrite_upload(tx, &row);
    }
    let received = SegmentRow {
        upload: row.upload,
        number: segment,
        size: change.content.as_slice().len() as u64,
    };
    put_segment(tx, &row, &received, change.content)
}
