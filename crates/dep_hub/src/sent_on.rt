//! What came of a content that is sent in steps.

/// What came of the content behind a reply, once a few blocks more were sent.
#[derive(Clone, Copy, PartialEq, Eq)]
pub enum SentOn {
    /// More is left.
    Part,
    /// Nothing is left.
    All,
    /// A fault broke it off, now or before: nothing more is sent.
    Broken,
}
