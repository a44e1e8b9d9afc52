//! What an accepted request asks for.

use dep_fields::Opening;
use dep_fixity::Digests;
use dep_types::{List, Metadata, Text};

/// Where the bytes of a new file come from.
#[derive(Clone, Copy)]
pub enum ContentSource {
    /// They are the content of the request, which has these digests.
    Posted(Digests),
    /// They are the segments of the upload with this number, joined.
    Assembled(u64),
}

/// A file that is deposited.
#[derive(Drop)]
pub struct NewFile {
    /// Its name: 1 to 255 bytes of UTF-8.
    pub name: Text,
    /// Its media type (RFC 9110, section 8.3).
    pub media: Text,
    /// Where its bytes come from.
    pub source: ContentSource,
    /// On whose behalf it is deposited.
    pub behalf: Option<Text>,
}

/// What is deposited: files, or metadata.
#[derive(Drop)]
pub enum Deposit {
    /// These files.
    Files(List<NewFile>),
    /// This metadata.
    Metadata(Metadata),
}

/// What an accepted request asks for. A number that is yet to be given doesn't stand in it.
#[derive(Drop)]
pub enum Decision {
    /// Nothing is changed.
    Show,
    /// A new object with this deposit alone, ingested or in progress.
    Create {
        deposit: Deposit,
        ingests: bool,
    },
    /// The deposit is added to what the object has; whether the object becomes ingested.
    Append {
        object: u64,
        deposit: Deposit,
        ingests: bool,
    },
    /// The deposit takes the place of all that the object has; whether the object becomes ingested.
    Replace {
        object: u64,
        deposit: Deposit,
        ingests: bool,
    },
    /// The object becomes ingested.
    Complete {
        object: u64,
    },
    /// The object has this metadata alone.
    SetMetadata {
        object: u64,
        metadata: Metadata,
    },
    /// The object has these files alone.
    SetFiles {
        object: u64,
        files: List<NewFile>,
    },
    /// The file of the object becomes this one, under its number.
    SetFile {
        object: u64,
        file: u64,
        new: NewFile,
    },
    /// The file goes from the object.
    DropFile {
        object: u64,
        file: u64,
    },
    /// The object goes, with its metadata and files.
    DropObject {
        object: u64,
    },
    /// A staged upload begins.
    Open(Opening),
    /// The content is this segment of the upload.
    Receive {
        upload: u64,
        segment: u64,
    },
    /// The upload goes.
    DropUpload {
        upload: u64,
    },
}
