//! Lines for standard error, which are written together.

use std::io::Write;

/// How many bytes are held at most.
const MOST_HELD: usize = 65_536;

/// Lines for standard error. They are written once the host rests, before one of a later second, and before they have more
/// than 64 KiB. One that can't be written is left out.
#[derive(Drop)]
pub struct HeldLines<'a> {
    rt: &'a HostRuntime,
    bytes: Vec<u8>,
    /// The second of the lines that are held.
    moment: u64,
}

impl<'a> HeldLines<'a> {
    /// No line.
    pub fn new(rt: &'a HostRuntime) -> HeldLines<'a> {
        HeldLines {
            rt,
            bytes: Vec::new(rt.alloc()),
            moment: 0,
        }
    }

    /// Holds a line of a second behind the others. Where there is no memory for it, all are written at once.
    pub fn push(&mut self, moment: u64, line: &[u8]) {
        if moment != self.moment || line.len() > MOST_HELD.saturating_sub(self.bytes.len()) {
            self.write();
            self.moment = moment;
        }
        if self.bytes.extend_from_slice(line).is_err() {
            self.write();
            let _ = self.rt.stderr().write_all(line);
        }
    }

    /// Writes what is held.
    pub fn write(&mut self) {
        if !self.bytes.is_empty() {
            let _ = self.rt.stderr().write_all(self.bytes.as_slice());
            self.bytes.clear();
        }
    }
}
