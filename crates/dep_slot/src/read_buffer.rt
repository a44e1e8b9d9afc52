//! What bytes are read into.
ghost use Rattle.std.specs.Prelude.{◌≡◌, ◌<◌, ◌≤◌, IfOk, length, min, max};
ghost use Rattle.dep_hub.specs.Numbers.{most_read};
ghost use Rattle.dep_outbox.specs.Sockets.{Receives, after_receive};

use dep_outbox::{Received, Source};
use std::alloc::{AllocError, Global};

/// How many bytes are read at once at most.
pub const MOST_READ: usize = 65_536;

/// What bytes are read into, a piece of one connection at a time.
#[derive(Drop)]
pub struct ReadBuffer {
    pub(crate) bytes: Vec<u8>,
    ghost some: { 0 < length bytes.items },
    ghost small: { length bytes.items ≤ most_read },
}

impl ReadBuffer {
    /// A buffer of so many bytes, at least one, up to `MOST_READ`. An `Err` is lack of memory.
    pub fn new(alloc: Global, size: usize) -> Result<ReadBuffer, AllocError>
        ensures { IfOk result (λ buffer. length buffer.bytes.items
            ≡ min (max size 1) MOST_READ) }
    {
        let bytes = vec![in alloc; 0u8; size.max(1).min(MOST_READ)]?;
        Ok(ReadBuffer { bytes })
    }

    /// Receives what is there, into a prefix of it. The source is asked once.
    pub fn receive<R: Source>(&mut self, source: &mut R) -> Received
        ensures bytes { Receives (R.unread source.old) (R.unread source.new)
            self.new.bytes.items result }
        ensures asks { R.halts source.new ≡ after_receive result (R.halts source.old) }
    {
        source.receive(self.bytes.as_mut_slice())
    }
}
