//! How far a reading came.

/// A watch that is told how many bytes were read, while they are.
pub trait Watch {
    /// So many octets more were read.
    fn advance(&mut self, octets: u64);
}

/// Looks at nothing.
#[derive(Drop)]
pub struct Unwatched;

impl Watch for Unwatched {
    fn advance(&mut self, _octets: u64) {}
}
