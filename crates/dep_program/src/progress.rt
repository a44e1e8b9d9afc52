//! How far a long command came, printed on standard error.

use std::io::IsTerminal;

/// The bytes between two lines: 256 MiB.
const STEP: u64 = 268_435_456;

const MEBIBYTE: u64 = 1_048_576;

/// Counts bytes, and where standard error is a terminal prints each further 256 MiB there.
#[derive(Drop)]
pub struct ProgressLine<'a> {
    rt: &'a HostRuntime,
    is_shown: bool,
    octets: u64,
}

impl<'a> ProgressLine<'a> {
    /// Nothing is counted yet. Whether it is shown is asked once, here.
    pub fn new(rt: &'a HostRuntime) -> ProgressLine<'a> {
        ProgressLine {
            rt,
            is_shown: rt.stderr().is_terminal(),
            octets: 0,
        }
    }

    /// So many bytes more were read or written.
    pub fn advance(&mut self, octets: u64) {
        let before = self.octets;
        self.octets = before.saturating_add(octets);
        if self.is_shown && before / STEP < self.octets / STEP {
            let done = self.octets / MEBIBYTE;
            let _ = eprintln!(self.rt; "swordd: {done} MiB");
        }
    }
}
