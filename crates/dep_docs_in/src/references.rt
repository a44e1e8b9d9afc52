//! Documents of references.
ghost use Rattle.std.specs.Prelude.{◌≡◌, ◌<◌, ◌≤◌, ◌+◌, ℕ, List, length, Some, None, OnOk, IfErr, IfSome, option_and_then};
ghost use Rattle.std.specs.Option.{option_copied};
ghost use Rattle.serde_json.specs.Find.{as_str};
ghost use Rattle.serde_json.specs.View.{view, items_view};
ghost use Rattle.dep_fixity.specs.Fixity.{digest_field};
ghost use Rattle.dep_docs_in.specs.Ahead.{read_behind};
ghost use Rattle.dep_docs_in.specs.Documents.{behind, digest_of, each_read, entries_of, form_name, length_of, media_in, media_in_entry, name_of, packaging_of, pointed_by, reference_in, references_of, references_read, target_of, upload_in_url};
ghost use Rattle.dep_docs_in.specs.Faults.{GivesRead, IsUnreadable};

use crate::document::{document, has_type, items_of, text_in, text_of};
use crate::fault::DocFault;
use crate::reference::{DEFAULT_MEDIA, Pointed, Reference};
use dep_fixity::{DigestList, read_digest_field};
use dep_octets::positive_decimal;
use dep_params::{Disposition, read_disposition};
use dep_types::{Config, GREATEST_NUMBER, List, Text, is_media};
use serde_json::Value;
use std::alloc::Global;
use url::{ParseError, Url};

/// Reads a document of references (SWORD 3.0, by-reference deposit): an object of JSON whose `@type` is absent or
/// `ByReference`, with entries under `byReferenceFiles`, at least one. Each entry has in `@id` a URL and in
/// `contentDisposition` an attachment with a file name; where they are there, `contentType` is a media type,
/// `contentLength` a number of at most 64 bits, `packaging` a text, and `digest` a Digest text. Other members, as `ttl`
/// and `dereference`, may be anything. It fails with `Malformed` for any other content, and with `Memory` where memory
/// was refused.
pub fn read_references(
    alloc: Global,
    config: &Config,
    content: &[u8],
) -> Result<List<Reference>, DocFault>
    ensures { GivesRead result (references_read config.now.base content.now) }
{
    let document = document(alloc, content)?;
    match entries_of(&document) {
        Some(entries) => entries_in(alloc, config, entries),
        None => Err(DocFault::Malformed),
    }
}

/// The entries of a document of references, at least one.
pub(crate) fn entries_of(document: &Value) -> Option<&Vec<Value>>
    ensures some { IfSome result (λ entries. (0 < length entries.now.items)
        × (entries_of (view document.now) ≡ Some (items_view entries.now.items))) }
    ensures none { result ≡ None → (base : List ℕ) → references_of base (view document.now) ≡ None }
{
    if !has_type(document, "ByReference") {
        return None;
    }
    match items_of(document, "byReferenceFiles") {
        Some(entries) if !entries.is_empty() => Some(entries),
        _ => None,
    }
}

fn entries_in(
    alloc: Global,
    config: &Config,
    entries: &[Value],
) -> Result<List<Reference>, DocFault>
    ensures { GivesRead result (each_read (reference_in config.now.base) (items_view entries.now)) }
{
    let mut references = Vec::new(alloc);
    read_some(alloc, config, entries, &mut references, entries.len())?;
    Ok(List::from_vec(references))
}

/// Reads up to so many of the entries behind those whose references are there.
pub(crate) fn read_some(
    alloc: Global,
    config: &Config,
    entries: &[Value],
    references: &mut Vec<Reference>,
    count: usize,
) -> Result<(), DocFault>
    ensures ok { OnOk result (read_behind config.now.base references.old.items (items_view entries.now)
        ≡ read_behind config.now.base references.new.items (items_view entries.now)) }
    ensures all { OnOk result (length entries.now ≤ length references.old.items + count
        → length entries.now ≤ length references.new.items) }
    ensures err { IfErr result (λ e. IsUnreadable e
        (read_behind config.now.base references.old.items (items_view entries.now))) }
{
    let end = entries.len().min(references.len().saturating_add(count));
    while references.len() < end {
        let entry = &entries[references.len()];
        references.push(reference_in(alloc, config, entry)?)?;
    }
    Ok(())
}

#[tactic(auto, unfolding(crate::specs::Documents::reference_in))]
fn reference_in(alloc: Global, config: &Config, entry: &Value) -> Result<Reference, DocFault>
    ensures { GivesRead result (reference_in config.now.base (view entry.now)) }
{
    let target = target_of(alloc, config, entry)?;
    let name = name_of(alloc, entry)?;
    let media = media_of(alloc, entry)?;
    let length = length_of(entry)?;
    let packaging = packaging_of(alloc, entry)?;
    let digest = digest_of(entry)?;
    Ok(Reference {
        target,
        name,
        media,
        length,
        packaging,
        digest,
    })
}

// What the URL of an entry points at.
#[tactic(auto, unfolding(crate::specs::Documents::target_of))]
fn target_of(alloc: Global, config: &Config, entry: &Value) -> Result<Pointed, DocFault>
    ensures { GivesRead result (target_of config.now.base (view entry.now)) }
{
    let Some(text) = text_of(entry, "@id") else {
        return Err(DocFault::Malformed);
    };
    match Url::parse(alloc, text) {
        Ok(url) => Ok(pointed_by(config, url.as_str().as_bytes())),
        // A URL whose length would be 4 GB counts as lack of memory.
        Err(ParseError::OutOfMemory | ParseError::Overflow) => Err(DocFault::Memory),
        Err(_) => Err(DocFault::Malformed),
    }
}

// An upload of this server, or elsewhere, by the text of a URL.
fn pointed_by(config: &Config, url: &[u8]) -> Pointed
    ensures { result ≡ pointed_by config.now.base url.now }
{
    match upload_number(config, url) {
        Some(upload) => Pointed::Upload(upload),
        None => Pointed::Elsewhere,
    }
}

fn upload_number(config: &Config, url: &[u8]) -> Option<u64>
    ensures { result ≡ upload_in_url config.now.base url.now }
{
    let path = behind(config.base.as_str().as_bytes(), url)?;
    positive_decimal(behind(b"/staging/", path)?, GREATEST_NUMBER)
}

// What follows this front, where the text begins with it.
fn behind<'a>(front: &[u8], text: &'a [u8]) -> Option<&'a [u8]>
    ensures { option_copied result ≡ behind front.now text.now }
{
    if text.starts_with(front) {
        Some(&text[front.len()..])
    } else {
        None
    }
}

// The file name that the disposition of an entry gives.
#[tactic(auto, unfolding(crate::specs::Documents::name_of))]
fn name_of(alloc: Global, entry: &Value) -> Result<Text, DocFault>
    ensures { GivesRead result (name_of (view entry.now)) }
{
    let Some(text) = text_of(entry, "contentDisposition") else {
        return Err(DocFault::Malformed);
    };
    let disposition = read_disposition(alloc, text.as_bytes())?;
    attachment_name(alloc, &disposition)
}

// The file name that an attachment gives.
fn attachment_name(alloc: Global, disposition: &Disposition) -> Result<Text, DocFault>
    ensures { GivesRead result (form_name disposition.now) }
{
    if disposition.form() != b"attachment".as_slice() {
        return Err(DocFault::Malformed);
    }
    Ok(Text::new(disposition.file_name(alloc)?))
}

// The media type of an entry, or the one of unknown bytes.
#[tactic(auto, unfolding(crate::specs::Documents::media_in_entry))]
fn media_of(alloc: Global, entry: &Value) -> Result<Text, DocFault>
    ensures { GivesRead result (media_in_entry (view entry.now)) }
{
    match entry.get("contentType") {
        Some(value) => media_in(alloc, value),
        None => Ok(Text::copied(alloc, DEFAULT_MEDIA)?),
    }
}

fn media_in(alloc: Global, value: &Value) -> Result<Text, DocFault>
    ensures { GivesRead result (media_in (view value.now)) }
{
    match value.as_str() {
        Some(text) if is_media(text.as_bytes()) => Ok(Text::copied(alloc, text)?),
        _ => Err(DocFault::Malformed),
    }
}

// How many bytes an entry is said to have.
#[tactic(auto, unfolding(crate::specs::Documents::length_of))]
fn length_of(entry: &Value) -> Result<Option<u64>, DocFault>
    ensures { GivesRead result (length_of (view entry.now)) }
{
    let Some(value) = entry.get("contentLength") else {
        return Ok(None);
    };
    match value.as_u64() {
        Some(length) => Ok(Some(length)),
        None => Err(DocFault::Malformed),
    }
}

// The packaging that an entry gives.
#[tactic(auto, unfolding(crate::specs::Documents::packaging_of))]
fn packaging_of(alloc: Global, entry: &Value) -> Result<Option<Text>, DocFault>
    ensures { GivesRead result (packaging_of (view entry.now)) }
{
    match entry.get("packaging") {
        Some(value) => Ok(Some(text_in(alloc, value)?)),
        None => Ok(None),
    }
}

// The digests that are promised of an entry.
#[tactic(auto, unfolding(crate::specs::Documents::digest_of))]
fn digest_of(entry: &Value) -> Result<DigestList, DocFault>
    ensures { GivesRead result (digest_of (view entry.now)) }
{
    match entry.get("digest") {
        Some(value) => digest_in(value),
        None => Ok(DigestList::none()),
    }
}

fn digest_in(value: &Value) -> Result<DigestList, DocFault>
    ensures { GivesRead result (option_and_then digest_field (as_str (view value.now))) }
{
    let Some(text) = value.as_str() else {
        return Err(DocFault::Malformed);
    };
    match read_digest_field(text.as_bytes()) {
        Ok(digest) => Ok(digest),
        Err(_) => Err(DocFault::Malformed),
    }
}
