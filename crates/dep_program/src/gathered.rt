//! An outlet that gathers what is written to it.
ghost use Rattle.std.specs.Prelude.{◌≡◌, [], false, IfOk, OnErr, OnOk};
ghost use Rattle.std.specs.Io.KnownBytes.{Appends, Keeps};
ghost use Rattle.std.specs.Io.Buffered.{writer_inner};
ghost use Rattle.dep_types.specs.Writing.{TakesPart};
ghost use Rattle.dep_connection.specs.Flushing.{IsFlushed};
ghost use Rattle.dep_program.specs.Gathering.{gathered_bytes, held_in, given};

use dep_connection::{Flush, FlushFailed};
use dep_types::{Outlet, WriteFailed};
use std::alloc::{AllocError, Global};
use std::io::{BufWriter, Write};

/// How many bytes are held back at most. As many in one write go out as they are.
const MOST_HELD: usize = 65_536;

/// An outlet over any writer that gathers up to 65,536 bytes, so that the replies of one arrival go out by one write.
/// It gives up at the first write that fails, but for one that was interrupted, which is tried again, and where the
/// writer takes no byte of a rest that is not empty. Behind that each write to it fails, so that no
/// reply is lost between others, and a client that can't be answered is served no further.
#[derive(Drop)]
pub struct Gathered<W: Write + Drop> {
    writer: BufWriter<W, Global>,
    failures: u64,
    has_failed: bool,
}

impl<W: Write + Drop> Gathered<W> {
    /// An outlet that holds nothing back so far. An `Err` is lack of memory.
    pub fn new(alloc: Global, writer: W) -> Result<Gathered<W>, AllocError>
        ensures writer { IfOk result (λ outlet. writer_inner outlet.writer ≡ writer) }
        ensures empty { IfOk result (λ outlet. held_in outlet ≡ []) }
        ensures failures { IfOk result (λ outlet. outlet.failures ≡ 0) }
        ensures open { IfOk result (λ outlet. outlet.has_failed ≡ false) }
    {
        match BufWriter::with_capacity(alloc, MOST_HELD, writer) {
            Ok(writer) => Ok(Gathered {
                writer,
                failures: 0,
                has_failed: false,
            }),
            Err(_) => Err(AllocError),
        }
    }

    /// Whether it gave up. Where it didn't, the writer has taken all that it took, once it was flushed.
    #[tactic(auto, using(crate::proofs::GatheredLemmas::all_given))]
    pub fn has_failed(&self) -> bool
        ensures answers { result ≡ self.now.has_failed }
        ensures whole { result ≡ false
            → IsFlushed (held_in self.now) self.now.has_failed
            → Keeps (gathered_bytes W.contents self.now)
            (given W.contents self.now) }
    {
        self.has_failed
    }

    /// Takes the bytes behind those that it took, unless it has given up.
    #[tactic(auto, using(crate::proofs::GatheredLemmas::none_taken))]
    fn take(&mut self, bytes: &[u8]) -> Result<(), WriteFailed>
        ensures ok { OnOk result (Appends (gathered_bytes W.contents self.old)
            (gathered_bytes W.contents self.new) bytes.now) }
        ensures err { OnErr result (TakesPart (gathered_bytes W.contents self.old)
            (gathered_bytes W.contents self.new) bytes.now) }
        ensures failures { self.new.failures ≡ self.old.failures }
    {
        if self.has_failed && !bytes.is_empty() {
            return Err(WriteFailed);
        }
        let mut rest = bytes;
        while !rest.is_empty() {
            match self.writer.write(rest) {
                Ok(n) if n > 0 => rest = &rest[n..],
                _ => return Err(WriteFailed),
            }
        }
        Ok(())
    }
}

impl<W: Write + Drop> Outlet for Gathered<W> {
    ghost taken = { λ outlet. gathered_bytes W.contents outlet };

    ghost failures = { λ outlet. outlet.failures };

    fn write(&mut self, bytes: &[u8]) -> Result<(), WriteFailed> {
        let taken = self.take(bytes);
        if let Err(WriteFailed) = taken {
            self.failures = self.failures.saturating_add(1);
            self.has_failed = true;
        }
        taken
    }
}

impl<W: Write + Drop> Flush for Gathered<W> {
    ghost held = { λ outlet. held_in outlet };

    ghost has_failed = { λ outlet. outlet.has_failed };

    fn flush(&mut self) -> Result<(), FlushFailed> {
        if self.has_failed {
            return Err(FlushFailed);
        }
        match self.writer.flush() {
            Ok(()) => Ok(()),
            Err(_) => {
                self.has_failed = true;
                Err(FlushFailed)
            }
        }
    }
}
