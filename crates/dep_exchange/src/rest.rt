//! What is still to be sent of a content.

use dep_answers::StoredFile;

/// A content that goes out in steps, and how many of its bytes were sent.
#[derive(Clone, Copy)]
pub struct Rest {
    /// The file that it is of.
    pub file: StoredFile,
    /// How many of its bytes were sent.
    pub sent: u64,
}
