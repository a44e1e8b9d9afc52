//! Replies that show the bag of an object (RFC 8493).
ghost use Rattle.std.specs.Prelude.{◌≡◌, ℕ, map, IfOk, IfSome};
ghost use Rattle.dep_types.specs.State.{State};
ghost use Rattle.dep_types.specs.Sound.{IsSound};
ghost use Rattle.dep_manifest.specs.Lengths.{OfLength};
ghost use Rattle.dep_manifest.specs.Reported.{row_path};
ghost use Rattle.dep_bag.specs.Bag.{list_text};
ghost use Rattle.dep_bag.specs.Parts.{tag_file_at};
ghost use Rattle.dep_answers.specs.Performing.{HasEnd, Says};
ghost use Rattle.dep_answers.specs.ReadSets.{shown_at, read_set_in_bag};
ghost use Rattle.dep_answers.specs.Reported.{reported_list, form_at, bag_answer};
ghost use Rattle.dep_answers.specs.Reporting.{IsShownByRow, IsTagView, SaysLength, SaysPayload, SaysTagFile, measured_by};

use crate::answer::{Answer, Form, ReplyText};
use crate::measured::measured_reply;
use crate::performed::{Delivery, Performed};
use crate::read_set::Shown;
use crate::stored::stored_reply;
use dep_bag::{BagPart, TagFile, bag_file, bag_paths, is_payload_path, tag_file};
use dep_docs_out::bag_metadata_doc;
use dep_manifest::{
    Algorithm, METADATA, declaration, payload_manifest_length, tag_manifest_length,
};
use dep_reply::Status;
use dep_types::{FileRow, Metadata, ObjectView, Octets, Text};
use std::alloc::{AllocError, Global};

/// The list of a bag: the path of each of its files, with a line feed.
pub(crate) fn bag_list(alloc: Global, shown: &Shown) -> Result<Answer, AllocError>
    ensures { IfOk result (λ a. a ≡ reported_list shown.now) }
{
    let Shown::Files(view) = shown else {
        return Ok(Answer::without_content(Status::Ok));
    };
    let paths = bag_paths(alloc, view)?;
    let text = list_text(alloc, paths.as_slice());
    drop(paths);
    Ok(Answer::showing(
        Status::Ok,
        ReplyText::new(Form::PlainText, Octets::from_vec(text?)),
    ))
}

fn list_text(alloc: Global, paths: &[Text]) -> Result<Vec<u8>, AllocError>
    ensures { IfOk result (λ text. text.items ≡ list_text paths.now) }
{
    let mut text = Vec::new(alloc);
    for path in paths {
        text.extend_from_slice(path.as_str().as_bytes())?;
        text.extend_from_slice(b"\n")?;
    }
    Ok(text)
}

/// Returns the reply that shows what stands at a path of an object's bag, where something stands there: by
/// the row of the one file that can, or else by what its tag file is made of. Of a manifest a bare reply says the length
/// by paths alone.
pub(crate) fn bag_reply(
    alloc: Global,
    shown: &Shown,
    path: &[u8],
    delivery: Delivery,
) -> Result<Option<Performed>, AllocError>
    ensures says { IfOk result (λ said. (s : State) (n : ℕ) → IsSound s
        → shown.now ≡ shown_at s (read_set_in_bag n path.now delivery.is_head_only)
        → Says s (bag_answer s n path.now) delivery said) }
    ensures ends { IfOk result (λ said. IfSome said HasEnd) }
{
    match shown {
        Shown::Object(view) | Shown::Files(view) => tag_file_reply(alloc, view, path, delivery),
        Shown::ObjectRow(_) => reply_by_row(alloc, path, delivery),
        Shown::Metadata { metadata, .. } => {
            let document = Octets::from_vec(bag_metadata_doc(alloc, metadata)?);
            Answer::say_text(alloc, Form::Document, document, delivery)
        }
        Shown::File(row) => file_reply_at(alloc, row, path, delivery),
        _ => Ok(None),
    }
}

// The tag file at a path that is shown by its object's row alone: the declaration, which is the same in each bag, or
// in a bare reply a tag manifest, which is as long in each.
fn reply_by_row(
    alloc: Global,
    path: &[u8],
    delivery: Delivery,
) -> Result<Option<Performed>, AllocError>
    ensures says { IfOk result
        (SaysTagFile path.now (IsShownByRow path.now delivery.is_head_only) delivery) }
    ensures ends { IfOk result (λ said. IfSome said HasEnd) }
{
    match tag_file(path) {
        Some(TagFile::TagManifest(algorithm)) => {
            measured_reply(alloc, tag_manifest_length(algorithm), delivery)
        }
        _ => {
            let text = Octets::from_vec(declaration(alloc)?);
            Answer::say_text(alloc, Form::PlainText, text, delivery)
        }
    }
}

// The content of the file with this row, without an entity tag, where it stands at the path.
fn file_reply_at(
    alloc: Global,
    row: &FileRow,
    path: &[u8],
    delivery: Delivery,
) -> Result<Option<Performed>, AllocError>
    ensures says { IfOk result (SaysPayload path.now row.now delivery) }
    ensures ends { IfOk result (λ said. IfSome said HasEnd) }
{
    if is_payload_path(path, row) {
        stored_reply(alloc, row, None, delivery)
    } else {
        Ok(None)
    }
}

// The tag file at a path where no payload file can stand: by its length alone, or else written out of all that it is
// made of.
fn tag_file_reply(
    alloc: Global,
    view: &ObjectView,
    path: &[u8],
    delivery: Delivery,
) -> Result<Option<Performed>, AllocError>
    ensures says { IfOk result
        (SaysTagFile path.now (IsTagView path.now view.now delivery.is_head_only) delivery) }
    ensures ends { IfOk result (λ said. IfSome said HasEnd) }
{
    if let Some(algorithm) = measured(path, delivery.is_head_only) {
        return measured_manifest(alloc, view.files.as_slice(), algorithm, delivery);
    }
    match bag_file(alloc, view, path)? {
        Some(BagPart::Bytes(text)) => Answer::say_text(alloc, form_at(path), text, delivery),
        Some(BagPart::Stored(_)) => Ok(None),
        None => Ok(None),
    }
}

// The algorithm of the payload's manifest, where that stands at the path and a bare reply is to say how long it is.
fn measured(path: &[u8], is_head_only: bool) -> Option<Algorithm>
    ensures { result ≡ measured_by (tag_file_at path.now) is_head_only }
{
    match (tag_file(path), is_head_only) {
        (Some(TagFile::Manifest(algorithm)), true) => Some(algorithm),
        _ => None,
    }
}

// The bare reply that says how long the payload's manifest is. Where 64 bits don't hold that, no memory holds the manifest.
fn measured_manifest(
    alloc: Global,
    files: &[FileRow],
    algorithm: Algorithm,
    delivery: Delivery,
) -> Result<Option<Performed>, AllocError>
    ensures says { IfOk result (λ said. OfLength algorithm (map row_path files.now)
        (λ size. SaysLength size delivery said)) }
    ensures ends { IfOk result (λ said. IfSome said HasEnd) }
{
    match payload_manifest_length(files, algorithm) {
        Some(size) => measured_reply(alloc, size, delivery),
        None => Err(AllocError),
    }
}

// The form of a tag file.
fn form_at(path: &[u8]) -> Form
    ensures { result ≡ form_at path.now }
{
    if path == METADATA.as_bytes() {
        Form::Document
    } else {
        Form::PlainText
    }
}
