//! The digests of the uploads that references name.

ghost use Rattle.std.specs.Prelude.{◌≡◌, ℕ, true, All, IfOk, IsTrue};
ghost use Rattle.dep_types.specs.Sound.{IsSound};
ghost use Rattle.dep_operations.specs.Views.{upload_state};
ghost use Rattle.dep_row_maps.specs.Clauses.{MayFind, MayReadOver};
ghost use Rattle.dep_staging.specs.HashedAhead.{AreRunning, Hashes};
ghost use Rattle.dep_views.specs.Seen.{GetsDigests, IsUndigested, hashed_views, state_seen};

use crate::view::LoadedView;
use dep_operations::{LiveUpload, UploadState, UploadView};
use dep_staging::{RunningHashes, hash_some, hash_upload};
use dep_tables::Statements;
use dep_types::{List, StoreFault};
use std::alloc::Global;

/// Of so many uploads that a document names all is hashed before it is answered: of half as many as
/// it is kept how far they were hashed.
const MOST_HASHED: usize = 4_096;

// What became of the number of an upload, which is hashed where it is whole. No row is read.
fn hash_state<T: Statements>(
    tx: &mut T,
    running: &mut RunningHashes,
    state: &UploadState,
) -> Result<UploadState, StoreFault>
    ensures map { MayFind T.lenders T.state tx.old tx.new result
        (λ s. IsTrue (T.state tx.old).is_open → Hashes s running.old running.new
        ((u : ℕ) → state.now ≡ state_seen true s u
        → IfOk result (λ hashed. hashed ≡ upload_state true s u))) }
{
    match state {
        UploadState::Live(live) => {
            if !live.is_whole {
                return Ok(UploadState::Live(LiveUpload {
                    row: live.row,
                    is_whole: live.is_whole,
                    digests: None,
                }));
            }
            let digests = hash_upload(tx, running, &live.row)?;
            Ok(UploadState::Live(LiveUpload {
                row: live.row,
                is_whole: live.is_whole,
                digests: Some(digests),
            }))
        }
        UploadState::TimedOut => Ok(UploadState::TimedOut),
        UploadState::Unknown => Ok(UploadState::Unknown),
    }
}

// The same of each of these uploads, in their order.
fn hash_uploads<T: Statements>(
    tx: &mut T,
    alloc: Global,
    running: &mut RunningHashes,
    views: &[UploadView],
) -> Result<List<UploadView>, StoreFault>
    ensures map { MayFind T.lenders T.state tx.old tx.new result
        (λ s. IsTrue (T.state tx.old).is_open → Hashes s running.old running.new
        (All (IsUndigested s) views.now
        → IfOk result (λ hashed. hashed ≡ hashed_views s views.now))) }
{
    let mut hashed = Vec::new(alloc);
    'views: for view in views {
        let state = hash_state(tx, running, &view.state)?;
        let with_digests = UploadView {
            upload: view.upload,
            state,
        };
        hashed.push(with_digests)?;
    }
    Ok(List::from_vec(hashed))
}

/// Hashes up to so many blocks of the uploads of these numbers, which references name, one after
/// another, and returns whether more may be left: of the first 4,096, so that none of them gives way
/// to another. Of each one row is read, and none of a segment. Where one isn't there, or lacks a
/// segment, nothing behind it is hashed, since it refuses the deposit.
pub fn hash_named<T: Statements>(
    tx: &mut T,
    running: &mut RunningHashes,
    uploads: &[u64],
    blocks: u64,
) -> Result<bool, StoreFault>
    ensures does { MayReadOver T.lenders T.state tx.old tx.new result
        (λ s. IsSound s → AreRunning s running.old → AreRunning s running.new) }
{
    let mut left = blocks;
    for upload in &uploads[..uploads.len().min(MOST_HASHED)] {
        match hash_some(tx, running, *upload, left)? {
            None => return Ok(false),
            Some(0) => return Ok(true),
            Some(rest) => left = rest,
        }
    }
    Ok(false)
}

/// Returns what was loaded, with the digests of each upload that references name and that lacks no
/// segment. Its bytes are read, one block at a time, but for those that were hashed before; what is
/// hashed stays known, whatever is returned. No row is read, and nothing without references.
pub fn load_digests<T: Statements>(
    tx: &mut T,
    alloc: Global,
    running: &mut RunningHashes,
    loaded: LoadedView,
) -> Result<LoadedView, StoreFault>
    ensures map { MayFind T.lenders T.state tx.old tx.new result
        (λ s. IsTrue (T.state tx.old).is_open → Hashes s running.old running.new
        (IfOk result (GetsDigests s loaded))) }
{
    if loaded.view.references.is_none() {
        return Ok(loaded);
    }
    // With `?` what was loaded would be taken apart there, and not dropped by a call, which is proved once.
    match hash_uploads(tx, alloc, running, loaded.view.uploads.as_slice()) {
        Ok(uploads) => Ok(loaded.with_uploads(uploads)),
        Err(fault) => {
            drop(loaded);
            Err(fault)
        }
    }
}
