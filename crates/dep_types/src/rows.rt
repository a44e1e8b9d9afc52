//! Objects, files and uploads, without the bytes of contents.

use crate::list::List;
use crate::metadata::Metadata;
use crate::text::Text;

/// An object, without its metadata and files.
#[derive(Clone, Copy)]
pub struct ObjectRow {
    /// The object's number.
    pub object: u64,
    /// Whether its deposit is complete (SWORD 3.0, the state `ingested`).
    pub ingested: bool,
    /// The entity tag of the object as a whole.
    pub object_tag: u64,
    /// The entity tag of its metadata.
    pub metadata_tag: u64,
    /// The entity tag of its file set.
    pub files_tag: u64,
    /// The moment of its last change, in seconds of Unix time.
    pub changed: u64,
}

/// A file, without its bytes.
#[derive(Drop)]
pub struct FileRow {
    /// The file's number.
    pub file: u64,
    /// The number of the object that it belongs to.
    pub object: u64,
    /// The name that it was deposited under.
    pub name: Text,
    /// Its media type (RFC 9110, section 8.3.1), as it was given.
    pub media: Text,
    /// How many bytes it has.
    pub size: u64,
    /// Its entity tag.
    pub tag: u64,
    /// The moment of its deposit, in seconds of Unix time.
    pub deposited: u64,
    /// On whose behalf it was deposited.
    pub behalf: Option<Text>,
    /// Whether it was deposited by reference to a staged upload.
    pub by_reference: bool,
    /// The SHA-256 of its bytes (FIPS 180-4).
    pub sha256: [u8; 32],
}

/// A staged upload, without its segments.
#[derive(Clone, Copy)]
pub struct UploadRow {
    /// The upload's number.
    pub upload: u64,
    /// How many bytes the whole has.
    pub size: u64,
    /// In how many segments it comes.
    pub count: u64,
    /// How many bytes each segment but the last has.
    pub segment_size: u64,
    /// The SHA-256 that was promised of the whole.
    pub sha256: Option<[u8; 32]>,
    /// The SHA-512 that was promised of the whole.
    pub sha512: Option<[u8; 64]>,
    /// The moment of the last segment, or of the opening, in seconds of Unix time.
    pub last: u64,
}

/// An object as it is shown: its row, its metadata, and its files by ascending number.
#[derive(Drop)]
pub struct ObjectView {
    /// Its row.
    pub object: ObjectRow,
    /// Its metadata.
    pub metadata: Metadata,
    /// Its files.
    pub files: List<FileRow>,
    /// The SHA-512 of each file, in their order, which stand in a table of their own.
    pub sha512s: List<[u8; 64]>,
}
