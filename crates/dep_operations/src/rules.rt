//! The rules that look at a view, one function each. None takes memory.
ghost use Rattle.std.specs.Prelude.{◌≡◌, option_map};
ghost use Rattle.dep_types.specs.Uploads.{sizes_agree};
ghost use Rattle.dep_types.specs.declared.refusal.Refusal.TheVariants as why;
ghost use Rattle.dep_decisions.specs.Kinds.{content_kind};
ghost use Rattle.dep_decisions.specs.Purposes.{kind_for};
ghost use Rattle.dep_decisions.specs.Rules.{behalf_rule, opening_refusal, presence_refusal, received_refusal, repeat_refusal, segment_by, size_rule, tag_refusal, unless};
ghost use Rattle.dep_operations.specs.Seen.{in_view, row_length, tag_seen};

use crate::references::state_rule;
use crate::view::{UploadState, UploadView, View};
use dep_decisions::{Operation, Purpose};
use dep_fields::{Field, IfMatch, Opening};
use dep_fixity::HashedOctets;
use dep_types::{Config, Refusal, Resource, UploadRow};

/// Rule 5: On-Behalf-Of.
#[tactic(auto, unfolding(dep_decisions::specs::Rules::behalf_rule))]
pub(crate) fn behalf_rule(config: &Config, operation: &Operation<'_>) -> Option<Refusal>
    ensures { result ≡ behalf_rule config.now operation.now }
{
    match &operation.fields.on_behalf_of {
        Field::Absent => None,
        _ if !config.on_behalf_of => Some(Refusal::OnBehalfOfNotAllowed),
        Field::Bad => Some(Refusal::BadRequest),
        Field::Value(_) => None,
    }
}

/// Rule 6: whether the resource is there.
pub(crate) fn presence_rule(view: &View, resource: &Resource) -> Option<Refusal>
    ensures { result ≡ presence_refusal (in_view view.now) resource.now }
{
    match *resource {
        Resource::Service | Resource::Staging => None,
        Resource::Object(_) | Resource::Metadata(_) | Resource::FileSet(_) | Resource::BagList(_) =>
            not_found_unless(view.object.is_some()),
        Resource::File(_, _) => not_found_unless(view.file.is_some()),
        Resource::Upload(_) => match view.uploads.as_slice() {
            [upload] => state_rule(&upload.state),
            _ => Some(Refusal::NotFound),
        },
        Resource::BagFile(_, _) => not_found_unless(view.has_path),
    }
}

fn not_found_unless(is_there: bool) -> Option<Refusal>
    ensures { result ≡ unless is_there why.NotFound }
{
    if is_there {
        None
    } else {
        Some(Refusal::NotFound)
    }
}

/// Rule 7: If-Match against a tag.
pub(crate) fn tag_rule(
    config: &Config,
    if_match: &Option<IfMatch<'_>>,
    tag: Option<u64>,
) -> Option<Refusal>
    ensures { result ≡ tag_refusal config.now.require_if_match if_match.now tag }
{
    let tag = tag?;
    match if_match {
        None if config.require_if_match => Some(Refusal::ETagRequired),
        Some(members) if !members.holds(tag) => Some(Refusal::ETagNotMatched),
        _ => None,
    }
}

/// The tag that If-Match is compared with, where the resource has one.
pub(crate) fn seen_tag(view: &View, resource: &Resource) -> Option<u64>
    ensures { result ≡ tag_seen view.now resource.now }
{
    match (resource, &view.object, &view.file) {
        (Resource::Object(_), Some(object), _) => Some(object.object_tag),
        (Resource::Metadata(_), Some(object), _) => Some(object.metadata_tag),
        (Resource::FileSet(_), Some(object), _) => Some(object.files_tag),
        (Resource::File(_, _), _, Some(file)) => Some(file.tag),
        _ => None,
    }
}

/// Rule 14: sizes and segments.
#[tactic(auto, unfolding(dep_decisions::specs::Rules::size_rule))]
pub(crate) fn size_rule(
    config: &Config,
    view: &View,
    operation: &Operation<'_>,
    purpose: Option<Purpose<'_>>,
) -> Option<Refusal>
    requires { option_map kind_for purpose ≡ content_kind operation.now }
    ensures { result ≡ size_rule config.now (in_view view.now) operation.now }
{
    match purpose {
        Some(Purpose::Opening(opening)) => opening_rule(config, opening),
        Some(Purpose::Segment(segment)) => {
            segment_rule(
                view,
                &operation.target.resource,
                segment,
                &operation.content,
            )
        }
        _ => None,
    }
}

fn opening_rule(config: &Config, opening: Opening) -> Option<Refusal>
    ensures { result ≡ opening_refusal config.now opening }
{
    if opening.size > config.max_assembled {
        return Some(Refusal::MaxAssembledSizeExceeded);
    }
    if opening.count > config.max_segments {
        return Some(Refusal::SegmentLimitExceeded);
    }
    if opening.segment_size > config.max_upload
        || !sizes_agree(opening.size, opening.count, opening.segment_size)
    {
        return Some(Refusal::InvalidSegmentSize);
    }
    None
}

// Whether so many segments of this size hold just so many bytes. Nothing wraps in 128 bits.
fn sizes_agree(size: u64, count: u64, segment_size: u64) -> bool
    ensures { result ≡ sizes_agree size count segment_size }
{
    let before_last = u128::from(count.saturating_sub(1)) * u128::from(segment_size);
    let most = u128::from(count) * u128::from(segment_size);
    before_last < u128::from(size) && u128::from(size) <= most
}

// Whether a segment is expected, and has its length or repeats what was received.
fn segment_rule(
    view: &View,
    resource: &Resource,
    segment: u64,
    content: &HashedOctets,
) -> Option<Refusal>
    ensures { result ≡ received_refusal (in_view view.now) resource.now segment content.now }
{
    let Resource::Upload(_) = resource else {
        return None;
    };
    match view.uploads.as_slice() {
        [
            UploadView {
                state: UploadState::Live(live),
                ..
            },
        ] => live_rule(&live.row, view.repeats, segment, content),
        _ => None,
    }
}

fn live_rule(
    row: &UploadRow,
    repeats: Option<bool>,
    segment: u64,
    content: &HashedOctets,
) -> Option<Refusal>
    ensures { result ≡ segment_by row.now.count (row_length row.now segment) repeats segment content.now }
{
    if segment < 1 || segment > row.count {
        return Some(Refusal::UnexpectedSegment);
    }
    let length = content.as_slice().len() as u64;
    repeat_rule(length == row_length(row, segment), repeats)
}

// A segment that was received before has to be the same, whatever its length; another one has to fit.
fn repeat_rule(fits: bool, repeats: Option<bool>) -> Option<Refusal>
    ensures { result ≡ repeat_refusal fits repeats }
{
    match repeats {
        Some(true) => None,
        Some(false) => Some(Refusal::UnexpectedSegment),
        None if fits => None,
        None => Some(Refusal::InvalidSegmentSize),
    }
}

// The length of a segment: the last one has the rest. A product past 64 bits is above the size, so
// that nothing is left.
fn row_length(row: &UploadRow, segment: u64) -> u64
    ensures { result ≡ row_length row.now segment }
{
    if segment == row.count {
        let before_last = row.count.saturating_sub(1).saturating_mul(row.segment_size);
        row.size.saturating_sub(before_last)
    } else {
        row.segment_size
    }
}
