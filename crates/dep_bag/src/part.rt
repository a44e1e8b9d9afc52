//! What stands at a path of a bag.
ghost use Rattle.std.specs.Prelude.{◌≡◌, IfOk, bytes_eq, map};
ghost use Rattle.dep_docs_out.specs.Made.{MakesItems};
ghost use Rattle.dep_bag.specs.Parts.{part_at, stored_part, tag_file_at, tag_text, reported_part};

use crate::paths::is_payload_path;
use dep_docs_out::bag_metadata_doc;
use dep_manifest::{
    Algorithm, BAG_INFO, BAGIT, MANIFEST_SHA256, MANIFEST_SHA512, METADATA, TAG_MANIFEST_SHA256,
    TAG_MANIFEST_SHA512, declaration, information, payload_manifest, tag_manifest,
};
use dep_types::{FileRow, ObjectView, Octets};
use std::alloc::{AllocError, Global};

/// What stands at a path of a bag.
#[derive(Drop)]
pub enum BagPart {
    /// A tag file, by its bytes.
    Bytes(Octets),
    /// A payload file, by the number of the file whose content it is.
    Stored(u64),
}

/// A file of a bag that is no payload.
#[derive(Clone, Copy)]
pub enum TagFile {
    /// `bagit.txt`, which is the same in each bag.
    Declaration,
    /// `bag-info.txt`.
    Information,
    /// The manifest of the payload by this algorithm.
    Manifest(Algorithm),
    /// `metadata/sword.json`.
    Metadata,
    /// The manifest of the tag files by this algorithm.
    TagManifest(Algorithm),
}

/// Returns what stands at a path of an object's bag, if something does. Paths are compared byte by byte. No
/// content is read. An `Err` is lack of memory.
pub fn bag_file(
    alloc: Global,
    view: &ObjectView,
    path: &[u8],
) -> Result<Option<BagPart>, AllocError>
    ensures { IfOk result (λ part. part ≡ reported_part view.now path.now) }
{
    match tag_file(path) {
        Some(file) => {
            let text = tag_text(alloc, view, file)?;
            Ok(Some(BagPart::Bytes(Octets::from_vec(text))))
        }
        None => Ok(stored_file(view.files.as_slice(), path)),
    }
}

/// Returns the tag file that stands at this path of a bag, if one does. Paths are compared byte by byte.
pub fn tag_file(path: &[u8]) -> Option<TagFile>
    ensures { result ≡ tag_file_at path.now }
{
    if is_at(path, BAGIT) {
        return Some(TagFile::Declaration);
    }
    if is_at(path, BAG_INFO) {
        return Some(TagFile::Information);
    }
    if is_at(path, MANIFEST_SHA256) {
        return Some(TagFile::Manifest(Algorithm::Sha256));
    }
    if is_at(path, MANIFEST_SHA512) {
        return Some(TagFile::Manifest(Algorithm::Sha512));
    }
    if is_at(path, METADATA) {
        return Some(TagFile::Metadata);
    }
    if is_at(path, TAG_MANIFEST_SHA256) {
        return Some(TagFile::TagManifest(Algorithm::Sha256));
    }
    if is_at(path, TAG_MANIFEST_SHA512) {
        return Some(TagFile::TagManifest(Algorithm::Sha512));
    }
    None
}

fn is_at(path: &[u8], place: &str) -> bool
    ensures { result ≡ bytes_eq path.now place.now }
{
    path == place.as_bytes()
}

// The text of a tag file.
fn tag_text(alloc: Global, view: &ObjectView, file: TagFile) -> Result<Vec<u8>, AllocError>
    ensures { MakesItems result (tag_text view.now file) }
{
    match file {
        TagFile::Declaration => declaration(alloc),
        TagFile::Information => information(alloc, view),
        TagFile::Manifest(algorithm) => payload_manifest(alloc, view, algorithm),
        TagFile::Metadata => bag_metadata_doc(alloc, &view.metadata),
        TagFile::TagManifest(algorithm) => tag_manifest(alloc, view, algorithm),
    }
}

/// The payload file at this path.
pub(crate) fn stored_file(rows: &[FileRow], path: &[u8]) -> Option<BagPart>
    ensures { result ≡ part_at path.now (map stored_part rows.now) }
{
    for row in rows {
        if is_payload_path(path, row) {
            return Some(BagPart::Stored(row.file));
        }
    }
    None
}
