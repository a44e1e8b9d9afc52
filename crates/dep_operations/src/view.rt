//! What a ruling looks at.

use dep_docs_in::Reference;
use dep_fixity::Digests;
use dep_types::{Counters, FileRow, List, ObjectRow, Octets, UploadRow};

/// A segment of an upload, by the numbers of both.
#[derive(Clone, Copy)]
pub struct SegmentId {
    /// The number of the upload.
    pub upload: u64,
    /// The number of the segment.
    pub number: u64,
}

/// The numbers at which a request looks at the archive, and the references by which it does.
#[derive(Drop)]
pub struct Touched {
    /// The number of an object.
    pub object: Option<u64>,
    /// The number of a file of that object.
    pub file: Option<u64>,
    /// A path in the bag of that object.
    pub path: Option<Octets>,
    /// The numbers of uploads: that of the Temporary-URL, or those that the references name, in their order.
    pub uploads: List<u64>,
    /// The segment that the content is sent as.
    pub segment: Option<SegmentId>,
    /// What the content refers to, where it is a document of references that can be read.
    pub references: Option<List<Reference>>,
}

/// An upload that is there: its row, and for a deposit by reference whether it is whole, and its digests.
#[derive(Drop)]
pub struct LiveUpload {
    /// What was said of it at its opening, and the moment of its last segment.
    pub row: UploadRow,
    /// Whether references name it, and none of its segments is missing.
    pub is_whole: bool,
    /// The digests of all segments joined: there where it is whole, once they were taken.
    pub digests: Option<Digests>,
}

/// What became of the number of an upload.
#[derive(Drop)]
pub enum UploadState {
    /// It was not given yet, or its upload is gone.
    Unknown,
    /// It was idle for longer than is allowed, and its segments are gone.
    TimedOut,
    /// The upload is there.
    Live(LiveUpload),
}

/// What is known at the number of an upload.
#[derive(Drop)]
pub struct UploadView {
    /// The number.
    pub upload: u64,
    /// What became of it.
    pub state: UploadState,
}

/// What a ruling looks at: the archive, at the numbers that a request touches.
#[derive(Drop)]
pub struct View {
    /// The greatest moment so far, in seconds of Unix time.
    pub clock: u64,
    /// The next number of each kind.
    pub next: Counters,
    /// The object that is touched, where it is there.
    pub object: Option<ObjectRow>,
    /// The file that is touched, where it is there.
    pub file: Option<FileRow>,
    /// Whether the bag of the object has the path that is touched.
    pub has_path: bool,
    /// The uploads that are touched, in the order of their numbers in [`Touched`].
    pub uploads: List<UploadView>,
    /// Where the segment that is touched was received before, whether its bytes are the content.
    pub repeats: Option<bool>,
    /// The references of [`Touched`].
    pub references: Option<List<Reference>>,
}
