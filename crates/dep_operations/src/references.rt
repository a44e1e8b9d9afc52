//! The rules on references (SWORD 3.0, by-reference deposit), one after another, each over all entries.
ghost use Rattle.std.specs.Prelude.{◌≡◌, IfOk, Some};
ghost use Rattle.dep_decisions.specs.Rules.{digests_refusal, each, entries_refusal, length_refusal, missing_refusal, references_refusal, occurs_twice};
ghost use Rattle.dep_operations.specs.Rules.{entry_refusal, rule_of, live_segments_refusal};
ghost use Rattle.dep_operations.specs.Seen.{entries_seen, entry_seen, in_view, is_timed_out, known_live, live_in};
ghost use Rattle.dep_operations.specs.Views.{uploads_named};

use crate::view::{UploadState, UploadView, View};
use dep_decisions::is_binary;
use dep_docs_in::{Pointed, Reference};
use dep_fixity::{DigestList, check};
use dep_types::Refusal;
use std::alloc::{AllocError, Global};
use std::collections::BTreeSet;

/// A rule on an entry alone.
#[derive(Clone, Copy)]
pub(crate) enum EntryRule {
    /// It points at an upload.
    PointsAtUpload,
    /// It has the one packaging that is taken.
    IsBinary,
}

/// A rule on an entry and the upload that it points at.
#[derive(Clone, Copy)]
pub(crate) enum UploadRule {
    IsThere,
    /// No segment is missing.
    IsWhole,
    /// It has the length that the entry gives.
    HasLength,
    /// It has the digests that were promised at its opening, and those that the entry promises.
    HasDigests,
}

/// The first rule on references that is broken. There is a view for each entry that points at an upload, in
/// their order.
pub(crate) fn references_rule(alloc: Global, view: &View) -> Result<Option<Refusal>, AllocError>
    ensures { IfOk result
        (λ refusal. refusal ≡ references_refusal (in_view view.now) view.now.references) }
{
    match &view.references {
        Some(references) => entries_rule(alloc, view, references.as_slice()),
        None => Ok(Some(Refusal::ContentMalformed)),
    }
}

fn entries_rule(
    alloc: Global,
    view: &View,
    references: &[Reference],
) -> Result<Option<Refusal>, AllocError>
    ensures { IfOk result (λ refusal. refusal ≡ entries_refusal (in_view view.now) references.now) }
{
    if let Some(refusal) = first_entry_refused(EntryRule::PointsAtUpload, references) {
        return Ok(Some(refusal));
    }
    if let Some(refusal) = first_entry_refused(EntryRule::IsBinary, references) {
        return Ok(Some(refusal));
    }
    if occurs_twice(alloc, references)? {
        return Ok(Some(Refusal::BadRequest));
    }
    let views = view.uploads.as_slice();
    if let Some(refusal) = first_refused(UploadRule::IsThere, references, views) {
        return Ok(Some(refusal));
    }
    if let Some(refusal) = first_refused(UploadRule::IsWhole, references, views) {
        return Ok(Some(refusal));
    }
    if let Some(refusal) = first_refused(UploadRule::HasLength, references, views) {
        return Ok(Some(refusal));
    }
    Ok(first_refused(UploadRule::HasDigests, references, views))
}

// What the first entry is refused for that breaks the rule.
fn first_entry_refused(rule: EntryRule, references: &[Reference]) -> Option<Refusal>
    ensures { result ≡ each (entry_refusal rule) references.now }
{
    let mut rest = references;
    while let Some((reference, behind)) = rest.split_first() {
        rest = behind;
        if let Some(refusal) = entry_rule(rule, reference) {
            return Some(refusal);
        }
    }
    None
}

fn entry_rule(rule: EntryRule, reference: &Reference) -> Option<Refusal>
    ensures { result ≡ entry_refusal rule reference.now }
{
    match rule {
        EntryRule::PointsAtUpload => match reference.target {
            Pointed::Upload(_) => None,
            Pointed::Elsewhere => Some(Refusal::ByReferenceNotAllowed),
        },
        EntryRule::IsBinary => match &reference.packaging {
            Some(packaging) if !is_binary(packaging.as_str().as_bytes()) => {
                Some(Refusal::PackagingFormatNotAcceptable)
            }
            _ => None,
        },
    }
}

// Whether an upload is named twice.
fn occurs_twice(alloc: Global, references: &[Reference]) -> Result<bool, AllocError>
    ensures { IfOk result (λ twice. twice ≡ occurs_twice (uploads_named references.now)) }
{
    let mut named: BTreeSet<u64> = BTreeSet::new(alloc);
    let mut rest = references;
    while let Some((reference, behind)) = rest.split_first() {
        if let Pointed::Upload(upload) = reference.target {
            if !named.insert(upload)? {
                return Ok(true);
            }
        }
        rest = behind;
    }
    Ok(false)
}

// What the first entry that points at an upload is refused for that breaks the rule.
#[tactic(auto, unfolding(crate::specs::Seen::entries_seen))]
fn first_refused(
    rule: UploadRule,
    references: &[Reference],
    views: &[UploadView],
) -> Option<Refusal>
    ensures { result ≡ each (rule_of rule) (entries_seen references.now views.now) }
{
    let mut rest = references;
    let mut left = views;
    while let Some((reference, behind)) = rest.split_first() {
        rest = behind;
        if let Pointed::Upload(_) = reference.target {
            if let Some((view, others)) = left.split_first() {
                if let Some(refusal) = upload_rule(rule, reference, &view.state) {
                    return Some(refusal);
                }
                left = others;
            }
        }
    }
    None
}

fn upload_rule(rule: UploadRule, reference: &Reference, state: &UploadState) -> Option<Refusal>
    ensures { result ≡ rule_of rule (entry_seen reference.now state.now) }
{
    match rule {
        UploadRule::IsThere => state_rule(state),
        UploadRule::IsWhole => segments_rule(state),
        UploadRule::HasLength => length_rule(reference, state),
        UploadRule::HasDigests => digest_rule(reference, state),
    }
}

/// What a reference to an upload is refused for that isn't there, or that timed out. A GET of it is refused alike.
pub fn state_rule(state: &UploadState) -> Option<Refusal>
    ensures { result ≡ missing_refusal (live_in state.now) (is_timed_out state.now) }
{
    match state {
        UploadState::Unknown => Some(Refusal::NotFound),
        UploadState::TimedOut => Some(Refusal::SegmentedUploadTimedOut),
        UploadState::Live(_) => None,
    }
}

/// What a reference to an upload is refused for that is there, and lacks a segment.
pub fn segments_rule(state: &UploadState) -> Option<Refusal>
    ensures { result ≡ live_segments_refusal state.now }
{
    match state {
        UploadState::Live(upload) if !upload.is_whole => Some(Refusal::BadRequest),
        _ => None,
    }
}

fn length_rule(reference: &Reference, state: &UploadState) -> Option<Refusal>
    ensures { result ≡ length_refusal known_live (entry_seen reference.now state.now) }
{
    let UploadState::Live(upload) = state else {
        return None;
    };
    match reference.length {
        Some(length) if length != upload.row.size => Some(Refusal::BadRequest),
        _ => None,
    }
}

fn digest_rule(reference: &Reference, state: &UploadState) -> Option<Refusal>
    ensures { result ≡ digests_refusal known_live (entry_seen reference.now state.now) }
{
    let UploadState::Live(upload) = state else {
        return None;
    };
    match &upload.digests {
        None => None,
        Some(digests) => {
            let promised = DigestList {
                sha256: upload.row.sha256,
                sha512: upload.row.sha512,
            };
            if check(&promised, digests) && check(&reference.digest, digests) {
                None
            } else {
                Some(Refusal::DigestMismatch)
            }
        }
    }
}
