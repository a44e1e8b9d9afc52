//! Uploads that references name, before any of them is hashed: one after another, as the rules need them.

ghost use Rattle.std.specs.Prelude.{◌≡◌, true, IfOk, IsTrue};
ghost use Rattle.dep_types.specs.Sound.{IsSound};
ghost use Rattle.dep_row_maps.specs.Clauses.{Finds, MayFind};
ghost use Rattle.dep_staging.specs.HashedAhead.{AreRunning};
ghost use Rattle.dep_views.specs.Named.{AreNamed, refused_lacking};
ghost use Rattle.dep_views.specs.Seen.{state_seen};

use crate::segments::is_whole;
use crate::uploads::find_state;
use dep_operations::{LiveUpload, UploadState, UploadView, segments_rule, state_rule};
use dep_staging::{FoundRow, RunningHashes, find_staged};
use dep_tables::Statements;
use dep_types::{List, Refusal, StoreFault};
use std::alloc::Global;

/// The uploads that references name, or why they can't be deposited.
#[derive(Drop)]
pub enum NamedUploads {
    /// Each is there, and lacks no segment: what is known of them, in their order.
    Whole(List<UploadView>),
    /// The first that isn't there refuses the deposit, or else one that lacks a segment.
    Refused(Refusal),
}

// What became of the number of an upload, and whether it lacks a segment. No segment's bytes are read.
fn load_state<T: Statements>(
    tx: &mut T,
    alloc: Global,
    running: &RunningHashes,
    upload: u64,
) -> Result<UploadState, StoreFault>
    ensures map { Finds T.lenders T.state tx.old tx.new result
        (λ s. IsSound s → AreRunning s running.now
        → IfOk result (λ state. state ≡ state_seen true s upload)) }
{
    match find_staged(tx, upload)? {
        FoundRow::Live(row) => {
            let is_whole = is_whole(tx, alloc, running, &row)?;
            Ok(UploadState::Live(LiveUpload {
                row,
                is_whole,
                digests: None,
            }))
        }
        FoundRow::TimedOut => Ok(UploadState::TimedOut),
        FoundRow::Unknown => Ok(UploadState::Unknown),
    }
}

// Refused for the first of these uploads that isn't there, or else for what another one lacks. No segment is read, and
// nothing behind it.
fn refuse_lacking<T: Statements>(
    tx: &mut T,
    uploads: &[u64],
    lacking: Refusal,
) -> Result<NamedUploads, StoreFault>
    ensures map { MayFind T.lenders T.state tx.old tx.new result
        (λ s. IsTrue (T.state tx.old).is_open
        → IfOk result (λ named. named ≡ refused_lacking s uploads.now lacking)) }
{
    let mut rest = uploads;
    while let Some((upload, behind)) = rest.split_first() {
        let state = find_state(tx, *upload)?;
        if let Some(refusal) = state_rule(&state) {
            return Ok(NamedUploads::Refused(refusal));
        }
        rest = behind;
    }
    Ok(NamedUploads::Refused(lacking))
}

/// Looks up the uploads of these numbers, which references name, in their order: up to the first that
/// isn't there. Of an upload that was hashed whole no row of a segment is read, of another each, but
/// none behind the first that lacks a segment. An upload that is named twice is read twice.
pub fn load_named<T: Statements>(
    tx: &mut T,
    alloc: Global,
    running: &RunningHashes,
    uploads: &[u64],
) -> Result<NamedUploads, StoreFault>
    ensures map { MayFind T.lenders T.state tx.old tx.new result
        (λ s. IsTrue (T.state tx.old).is_open → IsSound s → AreRunning s running.now
        → IfOk result (AreNamed s uploads.now)) }
{
    let mut views = Vec::new(alloc);
    let mut rest = uploads;
    while let Some((upload, behind)) = rest.split_first() {
        let state = load_state(tx, alloc, running, *upload)?;
        if let Some(refusal) = state_rule(&state) {
            return Ok(NamedUploads::Refused(refusal));
        }
        if let Some(refusal) = segments_rule(&state) {
            return refuse_lacking(tx, behind, refusal);
        }
        let view = UploadView {
            upload: *upload,
            state,
        };
        views.push(view)?;
        rest = behind;
    }
    Ok(NamedUploads::Whole(List::from_vec(views)))
}
