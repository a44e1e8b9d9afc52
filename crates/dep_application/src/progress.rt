//! A watch that prints how far a long command came.

use dep_program::ProgressLine;
use dep_store::Watch;

/// Prints on standard error how far a command came.
#[derive(Drop)]
pub struct Reported<'a>(pub ProgressLine<'a>);

impl Watch for Reported<'_> {
    fn advance(&mut self, octets: u64) {
        self.0.advance(octets);
    }
}
