//! An inlet over any reader.
ghost use Rattle.std.specs.Prelude.{◌≡◌};

use crate::inlet::{Inlet, LastRead, ReadFailed};
use std::io::Read;

/// An inlet over any reader. A read counts as failed at any error, an interruption too.
#[derive(Drop)]
pub struct ReaderInlet<R> {
    reader: R,
    reads: u64,
    last: LastRead,
}

impl<R: Read> ReaderInlet<R> {
    ghost use Rattle.dep_types.specs.Reading.{reader_of, reads_of, last_of};

    /// An inlet that made no read so far.
    pub fn new(reader: R) -> ReaderInlet<R>
        ensures reader { reader_of result ≡ reader }
        ensures reads { reads_of result ≡ 0 }
        ensures last { last_of result ≡ LastRead.NoneYet }
    {
        ReaderInlet {
            reader,
            reads: 0,
            last: LastRead::NoneYet,
        }
    }

    /// Hands the reader back.
    pub fn into_inner(self) -> R
        ensures { result ≡ reader_of self }
    {
        let ReaderInlet {
            reader,
            reads: _,
            last: _,
        } = self;
        reader
    }
}

impl<R: Read> Inlet for ReaderInlet<R> {
    ghost use Rattle.dep_types.specs.Reading.{reader_of, reads_of, last_of};

    ghost unread = { λ inlet. R.remaining (reader_of inlet) };

    ghost reads = { λ inlet. reads_of inlet };

    ghost last = { λ inlet. last_of inlet };

    fn read(&mut self, buffer: &mut [u8]) -> Result<usize, ReadFailed> {
        self.reads = self.reads.saturating_add(1);
        let Ok(count) = self.reader.read(buffer) else {
            self.last = LastRead::Failed;
            return Err(ReadFailed);
        };
        self.last = match count {
            0 => LastRead::Nothing,
            _ => LastRead::Bytes,
        };
        Ok(count)
    }
}
