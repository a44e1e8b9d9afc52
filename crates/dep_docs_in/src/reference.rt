//! What a document of references says.

use dep_fixity::DigestList;
use dep_types::Text;

/// The media type of a file whose reference gives none (RFC 9110, section 8.3).
pub const DEFAULT_MEDIA: &str = "application/octet-stream";

/// What a reference points at.
#[derive(Clone, Copy)]
pub enum Pointed {
    /// A staged upload of this server, by its number.
    Upload(u64),
    /// Anything else.
    Elsewhere,
}

/// An entry of a document of references (SWORD 3.0, by-reference deposit).
#[derive(Drop)]
pub struct Reference {
    /// What is to be deposited.
    pub target: Pointed,
    /// The name of the file.
    pub name: Text,
    /// Its media type: `DEFAULT_MEDIA` where the entry gives none.
    pub media: Text,
    /// How many bytes it is said to have.
    pub length: Option<u64>,
    /// Its packaging, where the entry gives one.
    pub packaging: Option<Text>,
    /// The digests that are promised of it.
    pub digest: DigestList,
}
