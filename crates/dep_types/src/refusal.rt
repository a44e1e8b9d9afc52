//! Why a request is refused.
ghost use Rattle.std.specs.Prelude.{◌≡◌};
ghost use Rattle.dep_types.specs.Refusals.{facts_of};

/// Why a request is refused: each refusal has a number, a status of HTTP, a name and a text, which its error
/// document shows (SWORD 3.0, error documents).
#[derive(Clone, Copy)]
pub enum Refusal {
    /// The request is malformed, or a field or a reference of it doesn't fit the operation.
    BadRequest,
    /// The content is no document of the kind that the request names.
    ContentMalformed,
    /// The sizes of an upload don't agree or pass `max_upload`, or a segment has another length.
    InvalidSegmentSize,
    /// The upload has no segment of this number, or has received it.
    UnexpectedSegment,
    /// An upload would have more segments than `max_segments`.
    SegmentLimitExceeded,
    /// An upload would have more bytes than `max_assembled`.
    MaxAssembledSizeExceeded,
    /// The path names no resource, or nothing is there.
    NotFound,
    /// The resource doesn't have this method (RFC 9110, section 15.5.6).
    MethodNotAllowed,
    /// The upload was idle for longer than `staging_max_idle` seconds.
    SegmentedUploadTimedOut,
    /// The content, or that of an upload, hasn't a digest that was promised for it.
    DigestMismatch,
    /// The tags of If-Match don't hold (RFC 9110, section 13.1.1).
    ETagNotMatched,
    /// If-Match is absent though the configuration requires it.
    ETagRequired,
    /// The configuration allows no deposit on behalf of others.
    OnBehalfOfNotAllowed,
    /// An entry of a deposit by reference points at no upload of this server.
    ByReferenceNotAllowed,
    /// The body has more bytes than `max_upload`.
    MaxUploadSizeExceeded,
    /// The content is encoded, or a document isn't JSON by its Content-Type.
    ContentTypeNotAcceptable,
    /// Metadata-Format names another format than that of SWORD 3.0.
    MetadataFormatNotAcceptable,
    /// Packaging names another one than Binary of SWORD 3.0.
    PackagingFormatNotAcceptable,
    /// The numbers of objects, files, uploads or changes have ended.
    StoreFull,
}

impl Refusal {
    /// The number in the log of the error document, 1 to 19: the place of the refusal among them.
    pub fn number(self) -> u8
        ensures { result ≡ (facts_of self).number }
    {
        self as u8 + 1
    }

    /// The status of the reply (RFC 9110, section 15).
    pub fn status(self) -> u16
        ensures { result ≡ (facts_of self).status }
    {
        match self {
            Refusal::BadRequest
            | Refusal::ContentMalformed
            | Refusal::InvalidSegmentSize
            | Refusal::UnexpectedSegment
            | Refusal::SegmentLimitExceeded
            | Refusal::MaxAssembledSizeExceeded => 400,
            Refusal::NotFound => 404,
            Refusal::MethodNotAllowed => 405,
            Refusal::SegmentedUploadTimedOut => 410,
            Refusal::DigestMismatch
            | Refusal::ETagNotMatched
            | Refusal::ETagRequired
            | Refusal::OnBehalfOfNotAllowed
            | Refusal::ByReferenceNotAllowed => 412,
            Refusal::MaxUploadSizeExceeded => 413,
            Refusal::ContentTypeNotAcceptable
            | Refusal::MetadataFormatNotAcceptable
            | Refusal::PackagingFormatNotAcceptable => 415,
            Refusal::StoreFull => 507,
        }
    }

    /// The name that the error document has as its type.
    pub fn name(self) -> &'static str
        ensures { result.now ≡ (facts_of self).name }
    {
        match self {
            Refusal::BadRequest => "BadRequest",
            Refusal::ContentMalformed => "ContentMalformed",
            Refusal::InvalidSegmentSize => "InvalidSegmentSize",
            Refusal::UnexpectedSegment => "UnexpectedSegment",
            Refusal::SegmentLimitExceeded => "SegmentLimitExceeded",
            Refusal::MaxAssembledSizeExceeded => "MaxAssembledSizeExceeded",
            Refusal::NotFound => "NotFound",
            Refusal::MethodNotAllowed => "MethodNotAllowed",
            Refusal::SegmentedUploadTimedOut => "SegmentedUploadTimedOut",
            Refusal::DigestMismatch => "DigestMismatch",
            Refusal::ETagNotMatched => "ETagNotMatched",
            Refusal::ETagRequired => "ETagRequired",
            Refusal::OnBehalfOfNotAllowed => "OnBehalfOfNotAllowed",
            Refusal::ByReferenceNotAllowed => "ByReferenceNotAllowed",
            Refusal::MaxUploadSizeExceeded => "MaxUploadSizeExceeded",
            Refusal::ContentTypeNotAcceptable => "ContentTypeNotAcceptable",
            Refusal::MetadataFormatNotAcceptable => "MetadataFormatNotAcceptable",
            Refusal::PackagingFormatNotAcceptable => "PackagingFormatNotAcceptable",
            Refusal::StoreFull => "StoreFull",
        }
    }

    /// What the error document says to a person.
    pub fn text(self) -> &'static str
        ensures { result.now ≡ (facts_of self).text }
    {
        match self {
            Refusal::BadRequest => "The request is not well formed for this operation",
            Refusal::ContentMalformed => "The document could not be read",
            Refusal::InvalidSegmentSize => "The segment sizes do not fit the upload",
            Refusal::UnexpectedSegment => "This segment is not expected",
            Refusal::SegmentLimitExceeded => "Too many segments",
            Refusal::MaxAssembledSizeExceeded => "The assembled file would be too large",
            Refusal::NotFound => "There is nothing at this URL",
            Refusal::MethodNotAllowed => "The method is not allowed here",
            Refusal::SegmentedUploadTimedOut => "The upload has timed out",
            Refusal::DigestMismatch => "The content does not match its digest",
            Refusal::ETagNotMatched => "The entity tag does not match",
            Refusal::ETagRequired => "An entity tag is required",
            Refusal::OnBehalfOfNotAllowed => "Deposit on behalf of others is not allowed",
            Refusal::ByReferenceNotAllowed => "This reference is not allowed",
            Refusal::MaxUploadSizeExceeded => "The content is too large",
            Refusal::ContentTypeNotAcceptable => "The content type is not acceptable",
            Refusal::MetadataFormatNotAcceptable => "The metadata format is not acceptable",
            Refusal::PackagingFormatNotAcceptable => "The packaging format is not acceptable",
            Refusal::StoreFull => "No more numbers can be given",
        }
    }
}
