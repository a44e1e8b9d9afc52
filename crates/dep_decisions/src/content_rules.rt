//! The rules on the fields of a content, which look at no more than the request: of the order of refusals in
//! docs/PROFILE.md those from 8 to 12. None takes memory.
ghost use Rattle.std.specs.Prelude.{◌≡◌, ◌==◌, option_map, bytes_eq, position};
ghost use Rattle.std.specs.List.{before_first};
ghost use Rattle.dep_types.specs.Names.{binary};
ghost use Rattle.dep_decisions.specs.Kinds.{content_kind};
ghost use Rattle.dep_decisions.specs.Purposes.{kind_for};
ghost use Rattle.dep_decisions.specs.Rules.{is_json, media_name, digest_rule, digests_if_promised, encoding_rule, fields_refusal, format_rule, in_progress_rule, kind_rule, reads_in_progress, type_rule, value_refusal};

use crate::operation::Operation;
use crate::purpose::{Purpose, is_completion};
use dep_fields::Field;
use dep_fixity::{Digests, check};
use dep_octets::trim_ows;
use dep_types::{
    BINARY_PACKAGING, METADATA_FORMAT, Method, Octets, Refusal, Resource, Target, Text,
};

/// Returns the first of rules 8 to 11 that applies: what Content-Encoding, Content-Disposition, In-Progress,
/// Packaging, Metadata-Format and Content-Type say of the content.
#[tactic(auto, unfolding(crate::specs::Rules::fields_refusal))]
pub fn fields_rule(operation: &Operation<'_>, purpose: Option<Purpose<'_>>) -> Option<Refusal>
    requires { option_map kind_for purpose ≡ content_kind operation.now }
    ensures { result ≡ fields_refusal operation.now }
{
    if let Some(refusal) = encoding_rule(operation) {
        return Some(refusal);
    }
    if let Some(refusal) = kind_rule(operation, purpose) {
        return Some(refusal);
    }
    if let Some(refusal) = progress_rule(operation) {
        return Some(refusal);
    }
    if let Some(refusal) = format_rule(operation, purpose) {
        return Some(refusal);
    }
    type_rule(operation, purpose)
}

/// Rule 8: Content-Encoding.
#[tactic(auto, unfolding(crate::specs::Rules::encoding_rule))]
fn encoding_rule(operation: &Operation<'_>) -> Option<Refusal>
    ensures { result ≡ encoding_rule operation.now }
{
    match &operation.fields.content_encoding {
        Field::Bad => Some(Refusal::BadRequest),
        Field::Value(coding) if !coding.as_slice().eq_ignore_ascii_case(b"identity") => {
            Some(Refusal::ContentTypeNotAcceptable)
        }
        _ => None,
    }
}

/// Rule 9: what the content is for.
#[tactic(auto, unfolding(crate::specs::Rules::kind_rule))]
fn kind_rule(operation: &Operation<'_>, purpose: Option<Purpose<'_>>) -> Option<Refusal>
    requires { option_map kind_for purpose ≡ content_kind operation.now }
    ensures { result ≡ kind_rule operation.now }
{
    if purpose.is_some() || is_completion(operation) {
        None
    } else {
        Some(Refusal::BadRequest)
    }
}

/// Rule 9: In-Progress.
#[tactic(auto, unfolding(crate::specs::Rules::in_progress_rule))]
fn progress_rule(operation: &Operation<'_>) -> Option<Refusal>
    ensures { result ≡ in_progress_rule operation.now }
{
    if !reads_in_progress(&operation.target) {
        return None;
    }
    match operation.fields.in_progress {
        Field::Bad => Some(Refusal::BadRequest),
        _ => None,
    }
}

fn reads_in_progress(target: &Target) -> bool
    ensures { result ≡ reads_in_progress target.now.resource target.now.method }
{
    match (&target.resource, target.method) {
        (Resource::Service, Method::Post) => true,
        (Resource::Object(_), Method::Post) => true,
        (Resource::Object(_), Method::Put) => true,
        _ => false,
    }
}

/// Rule 10: Packaging and Metadata-Format.
#[tactic(auto, unfolding(crate::specs::Rules::format_rule))]
fn format_rule(operation: &Operation<'_>, purpose: Option<Purpose<'_>>) -> Option<Refusal>
    requires { option_map kind_for purpose ≡ content_kind operation.now }
    ensures { result ≡ format_rule operation.now }
{
    match purpose {
        Some(Purpose::File(_)) => unless_is(
            &operation.fields.packaging,
            BINARY_PACKAGING,
            Refusal::PackagingFormatNotAcceptable,
        ),
        Some(Purpose::Metadata) => unless_is(
            &operation.fields.metadata_format,
            METADATA_FORMAT,
            Refusal::MetadataFormatNotAcceptable,
        ),
        _ => None,
    }
}

// A field that has to be absent or this text.
fn unless_is(field: &Field<Octets>, taken: &str, refusal: Refusal) -> Option<Refusal>
    ensures { result ≡ value_refusal (bytes_eq taken.now) refusal field.now }
{
    match field {
        Field::Absent => None,
        Field::Bad => Some(Refusal::BadRequest),
        Field::Value(text) => {
            if taken.as_bytes() == text.as_slice() {
                None
            } else {
                Some(refusal)
            }
        }
    }
}

/// Rule 11: Content-Type.
#[tactic(auto, unfolding(crate::specs::Rules::type_rule))]
fn type_rule(operation: &Operation<'_>, purpose: Option<Purpose<'_>>) -> Option<Refusal>
    requires { option_map kind_for purpose ≡ content_kind operation.now }
    ensures { result ≡ type_rule operation.now }
{
    match purpose {
        Some(Purpose::File(_)) => match &operation.fields.content_type {
            Field::Bad => Some(Refusal::BadRequest),
            _ => None,
        },
        Some(Purpose::Metadata | Purpose::References) => match &operation.fields.content_type {
            Field::Absent => None,
            Field::Bad => Some(Refusal::BadRequest),
            Field::Value(text) => {
                if is_json(text) {
                    None
                } else {
                    Some(Refusal::ContentTypeNotAcceptable)
                }
            }
        },
        _ => None,
    }
}

fn is_json(text: &Text) -> bool
    ensures { result ≡ is_json text.now }
{
    let name = media_name(text.as_str().as_bytes());
    name.eq_ignore_ascii_case(b"application/json")
        || name.eq_ignore_ascii_case(b"application/ld+json")
}

// What stands before the first semicolon, without the blanks about it.
fn media_name(text: &[u8]) -> &[u8]
    ensures { result.now ≡ media_name text.now }
{
    trim_ows(before_semicolon(text))
}

fn before_semicolon(text: &[u8]) -> &[u8]
    ensures { result.now ≡ before_first (λ b. b == 59) text.now }
{
    match first_semicolon(text) {
        Some(semicolon) => &text[..semicolon],
        None => text,
    }
}

fn first_semicolon(text: &[u8]) -> Option<usize>
    ensures { result ≡ position (λ b. b == 59) text.now }
{
    text.iter().position(|b| *b == b';')
}

/// Returns the digests of the content, where some digest is promised: else they aren't computed.
pub fn digests_if_promised(operation: &Operation<'_>) -> Option<Digests>
    ensures { result ≡ digests_if_promised operation.now operation.now.fields.digest }
{
    match &operation.fields.digest {
        Field::Value(list) if list.promises() => { Some(operation.content.digests()) }
        _ => None,
    }
}

/// Returns the refusal of rule 12: `BadRequest` where Digest can't be read, `DigestMismatch` where a digest
/// in it isn't that of the content.
#[tactic(auto, unfolding(crate::specs::Rules::digest_rule))]
pub fn digest_rule(operation: &Operation<'_>, digests: Option<Digests>) -> Option<Refusal>
    requires { digests ≡ digests_if_promised operation.now operation.now.fields.digest }
    ensures { result ≡ digest_rule operation.now }
{
    match (&operation.fields.digest, digests) {
        (Field::Bad, _) => Some(Refusal::BadRequest),
        (Field::Value(list), Some(digests)) if !check(list, &digests) => {
            Some(Refusal::DigestMismatch)
        }
        _ => None,
    }
}

/// Whether the text is the one packaging that is taken.
pub fn is_binary(packaging: &[u8]) -> bool
    ensures { result ≡ bytes_eq binary packaging.now }
{
    BINARY_PACKAGING.as_bytes() == packaging
}
