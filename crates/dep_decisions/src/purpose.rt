//! What the content of a request is for.
ghost use Rattle.std.specs.Prelude.{◌≡◌, option_map};
ghost use Rattle.dep_decisions.specs.Kinds.{is_absent, is_completion, is_deposit, is_true, content_kind, kind_without, may_complete, may_hold, takes_kind};
ghost use Rattle.dep_decisions.specs.Purposes.{kind_for};

use crate::operation::Operation;
use dep_fields::{Field, Kind, Opening};
use dep_fixity::HashedOctets;
use dep_types::{Method, Resource, Target, Text};

/// What a content is for: its kind, with the name of a file as the request has it.
#[derive(Clone, Copy)]
pub enum Purpose<'a> {
    /// It is a file under this name.
    File(&'a Text),
    /// It is a metadata document.
    Metadata,
    /// It is a document of references.
    References,
    /// There is none: a staged upload is to begin.
    Opening(Opening),
    /// It is the segment of a staged upload with this number.
    Segment(u64),
}

/// Returns what the content is for, by Content-Disposition, or for a PUT on the Metadata-URL without that field
/// the metadata document. It is `None` where the field is bad, where the method of the resource takes no such
/// content, and for an opening that has a content. It takes no memory.
#[tactic(auto, unfolding(crate::specs::Kinds::content_kind))]
pub fn content_purpose<'a>(operation: &'a Operation<'_>) -> Option<Purpose<'a>>
    ensures { option_map kind_for result ≡ content_kind operation.now }
{
    match &operation.fields.disposition {
        Field::Value(kind) => {
            if takes_kind(&operation.target, kind) && may_hold(kind, &operation.content) {
                Some(purpose_of(kind))
            } else {
                None
            }
        }
        Field::Bad => None,
        Field::Absent => purpose_without(&operation.target),
    }
}

fn purpose_of(kind: &Kind) -> Purpose<'_>
    ensures { kind_for result ≡ kind.now }
{
    match kind {
        Kind::File(name) => Purpose::File(name),
        Kind::Metadata => Purpose::Metadata,
        Kind::References => Purpose::References,
        Kind::Opening(opening) => Purpose::Opening(*opening),
        Kind::Segment(segment) => Purpose::Segment(*segment),
    }
}

fn purpose_without<'a>(target: &Target) -> Option<Purpose<'a>>
    ensures { option_map kind_for result ≡ kind_without target.now.resource target.now.method }
{
    match (&target.resource, target.method) {
        (Resource::Metadata(_), Method::Put) => Some(Purpose::Metadata),
        _ => None,
    }
}

/// Whether this method of the resource takes such a content.
fn takes_kind(target: &Target, kind: &Kind) -> bool
    ensures { result ≡ takes_kind target.now.resource target.now.method kind.now }
{
    match (&target.resource, target.method) {
        (Resource::Service, Method::Post) => is_deposit(kind),
        (Resource::Object(_), Method::Post) => is_deposit(kind),
        (Resource::Object(_), Method::Put) => is_deposit(kind),
        (Resource::Metadata(_), Method::Put) => matches!(kind, Kind::Metadata),
        (Resource::FileSet(_), Method::Put) => matches!(kind, Kind::File(_) | Kind::References),
        (Resource::File(_, _), Method::Put) => matches!(kind, Kind::File(_)),
        (Resource::Staging, Method::Post) => matches!(kind, Kind::Opening(_)),
        (Resource::Upload(_), Method::Post) => matches!(kind, Kind::Segment(_)),
        _ => false,
    }
}

fn is_deposit(kind: &Kind) -> bool
    ensures { result ≡ is_deposit kind.now }
{
    matches!(kind, Kind::File(_) | Kind::Metadata | Kind::References)
}

fn may_hold(kind: &Kind, content: &HashedOctets) -> bool
    ensures { result ≡ may_hold kind.now content.now }
{
    match kind {
        Kind::Opening(_) => content.as_slice().is_empty(),
        _ => true,
    }
}

/// Whether the request completes an object: POST on the Object-URL without Content-Disposition and
/// without content, where In-Progress isn't true.
#[tactic(auto, unfolding(crate::specs::Kinds::is_completion))]
pub fn is_completion(operation: &Operation<'_>) -> bool
    ensures { result ≡ is_completion operation.now }
{
    may_complete(&operation.target)
        && is_absent(&operation.fields.disposition)
        && operation.content.as_slice().is_empty()
        && !is_true(&operation.fields.in_progress)
}

fn may_complete(target: &Target) -> bool
    ensures { result ≡ may_complete target.now.resource target.now.method }
{
    match (&target.resource, target.method) {
        (Resource::Object(_), Method::Post) => true,
        _ => false,
    }
}

fn is_absent(disposition: &Field<Kind>) -> bool
    ensures { result ≡ is_absent disposition.now }
{
    match disposition {
        Field::Absent => true,
        _ => false,
    }
}

/// Whether In-Progress is there and true.
pub(crate) fn is_true(in_progress: &Field<bool>) -> bool
    ensures { result ≡ is_true in_progress.now }
{
    match in_progress {
        Field::Value(value) => *value,
        _ => false,
    }
}
