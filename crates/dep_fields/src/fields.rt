//! The fields of SWORD 3.0 in a request's head.
ghost use Rattle.std.specs.Prelude.{◌≡◌, IfOk, OnErr, MatchResult, IsAscii, codes};
ghost use Rattle.dep_head.specs.Head.{values_of};
ghost use Rattle.dep_types.specs.Names.{if_passes, is_media};
ghost use Rattle.dep_fixity.specs.Fixity.{digest_field};
ghost use Rattle.dep_fields.specs.Copied.{AreCopies};
ghost use Rattle.dep_fields.specs.Fields.{AreFields, IsCopied, as_it_stands, field_in, is_behalf};
ghost use Rattle.dep_fields.specs.Reported.{fields_of};
ghost use Rattle.dep_fields.specs.Kinds.{IsKind, truth};
ghost use Rattle.dep_fields.specs.Values.{HasValue, IsReadFrom, joined_values, or_bad, read_from, texts};

use crate::field::Field;
use crate::kind::{Kind, read_kind, truth};
use crate::values::{joined, single};
use dep_fixity::{DigestList, read_digest_field};
use dep_head::Head;
use dep_types::{Octets, Text, is_media};
use std::alloc::{AllocError, Global};

/// What each field of SWORD in a request's head says. One that stands twice is `Bad`, but for `digest`.
#[derive(Drop)]
pub struct SwordFields {
    /// On-Behalf-Of (SWORD 3.0): a text of UTF-8 that is not empty.
    pub on_behalf_of: Field<Text>,
    /// Content-Disposition (RFC 6266): what the content is for.
    pub disposition: Field<Kind>,
    /// In-Progress (SWORD 3.0): `true` or `false`, in any letter case.
    pub in_progress: Field<bool>,
    /// Packaging (SWORD 3.0): any text.
    pub packaging: Field<Octets>,
    /// Metadata-Format (SWORD 3.0): any text.
    pub metadata_format: Field<Octets>,
    /// Content-Type (RFC 9110, section 8.3): 1 to 255 bytes of 0x20 to 0x7E.
    pub content_type: Field<Text>,
    /// Content-Encoding (RFC 9110, section 8.4): any text.
    pub content_encoding: Field<Octets>,
    /// The Digest fields (RFC 3230, section 4.3.2), joined by commas.
    pub digest: Field<DigestList>,
}

impl SwordFields {
    /// Reads the fields of a head. An `Err` is lack of memory, and nothing else.
    pub fn read(alloc: Global, head: &Head) -> Result<SwordFields, AllocError>
        ensures fields { IfOk result (AreFields head.now.fields) }
        ensures one { IfOk result (λ read. read ≡ fields_of head.now.fields) }
        ensures wanted { OnErr result (IsCopied head.now.fields) }
    {
        let digest = digest(alloc, head)?;
        let on_behalf_of = copied_text(alloc, behalf(single(head, "On-Behalf-Of")))?;
        let disposition = disposition(alloc, single(head, "Content-Disposition"))?;
        let copies = copied_fields(alloc, head)?;
        Ok(SwordFields {
            on_behalf_of,
            disposition,
            in_progress: progress(single(head, "In-Progress")),
            packaging: copies.packaging,
            metadata_format: copies.metadata_format,
            content_type: copies.content_type,
            content_encoding: copies.content_encoding,
            digest,
        })
    }
}

// The fields that are copied as they stand.
#[derive(Drop)]
struct Copies {
    packaging: Field<Octets>,
    metadata_format: Field<Octets>,
    content_encoding: Field<Octets>,
    content_type: Field<Text>,
}

fn copied_fields(alloc: Global, head: &Head) -> Result<Copies, AllocError>
    ensures fields { IfOk result (AreCopies head.now.fields) }
    ensures wanted { OnErr result (IsCopied head.now.fields) }
{
    Ok(Copies {
        packaging: copied(alloc, single(head, "Packaging"))?,
        metadata_format: copied(alloc, single(head, "Metadata-Format"))?,
        content_encoding: copied(alloc, single(head, "Content-Encoding"))?,
        content_type: copied_text(alloc, media(single(head, "Content-Type")))?,
    })
}

fn disposition(alloc: Global, field: Field<&[u8]>) -> Result<Field<Kind>, AllocError>
    ensures { MatchResult result (IsReadFrom IsKind (texts field.entry))
        (λ _. HasValue (texts field.entry)) }
{
    match field {
        Field::Absent => Ok(Field::Absent),
        Field::Bad => Ok(Field::Bad),
        Field::Value(text) => read_kind(alloc, text),
    }
}

fn behalf(field: Field<&[u8]>) -> Field<&str>
    ensures { texts result ≡ read_from (if_passes is_behalf) (texts field.entry) }
{
    match field {
        Field::Absent => Field::Absent,
        Field::Bad => Field::Bad,
        Field::Value(text) if text.is_empty() => Field::Bad,
        Field::Value(text) => match str::from_utf8(text) {
            Ok(name) => Field::Value(name),
            Err(_) => Field::Bad,
        },
    }
}

fn progress(field: Field<&[u8]>) -> Field<bool>
    ensures { result ≡ read_from truth (texts field.entry) }
{
    match field {
        Field::Absent => Field::Absent,
        Field::Bad => Field::Bad,
        Field::Value(text) => match truth(text) {
            Some(value) => Field::Value(value),
            None => Field::Bad,
        },
    }
}

fn copied(alloc: Global, field: Field<&[u8]>) -> Result<Field<Octets>, AllocError>
    ensures { MatchResult result (λ read. read ≡ read_from as_it_stands (texts field.entry))
        (λ _. HasValue (texts field.entry)) }
{
    match field {
        Field::Absent => Ok(Field::Absent),
        Field::Bad => Ok(Field::Bad),
        Field::Value(text) => Ok(Field::Value(Octets::copied(alloc, text)?)),
    }
}

fn media(field: Field<&[u8]>) -> Field<&str>
    ensures { texts result ≡ read_from (if_passes is_media) (texts field.entry) }
{
    match field {
        Field::Absent => Field::Absent,
        Field::Value(text) if is_media(text) => Field::Value(ascii_text(text)),
        _ => Field::Bad,
    }
}

// A copy of the text, where there is one.
fn copied_text(alloc: Global, field: Field<&str>) -> Result<Field<Text>, AllocError>
    ensures { MatchResult result (λ read. read ≡ texts field.entry)
        (λ _. HasValue (texts field.entry)) }
{
    match field {
        Field::Absent => Ok(Field::Absent),
        Field::Bad => Ok(Field::Bad),
        Field::Value(text) => Ok(Field::Value(Text::copied(alloc, text)?)),
    }
}

// ASCII as a text.
fn ascii_text(bytes: &[u8]) -> &str
    requires { IsAscii bytes.now }
    ensures { result.now ≡ bytes.now }
{
    let Ok(text) = str::from_utf8(bytes) else {
        unreachable!();
    };
    text
}

// One field is read where it stands; the texts of several are joined in a copy.
fn digest(alloc: Global, head: &Head) -> Result<Field<DigestList>, AllocError>
    ensures { MatchResult result (λ read. read ≡
        read_from digest_field (joined_values (values_of head.now.fields (codes "Digest"))))
        (λ _. field_in head.now.fields (codes "Digest") ≡ Field.Bad) }
{
    match single(head, "Digest") {
        Field::Absent => Ok(Field::Absent),
        Field::Value(text) => Ok(digest_in(text)),
        Field::Bad => {
            let text = joined(alloc, head.values("Digest"))?;
            Ok(digest_in(&text))
        }
    }
}

fn digest_in(text: &[u8]) -> Field<DigestList>
    ensures { result ≡ or_bad (digest_field text.now) }
{
    let Ok(digest) = read_digest_field(text) else {
        return Field::Bad;
    };
    Field::Value(digest)
}
