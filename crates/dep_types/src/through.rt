//! An outlet over any writer.
ghost use Rattle.std.specs.Prelude.{◌≡◌};

use crate::outlet::{Outlet, WriteFailed};
use std::io::Write;

/// An outlet over any writer. A write counts as failed at any error, an interruption too, and where
/// the writer takes no byte of a rest that is not empty.
#[derive(Drop)]
pub struct Through<W> {
    writer: W,
    failures: u64,
}

impl<W: Write> Through<W> {
    ghost use Rattle.dep_types.specs.Through.{writer_of, failures_of};

    /// An outlet whose writes have not failed so far.
    pub fn new(writer: W) -> Through<W>
        ensures writer { writer_of result ≡ writer }
        ensures failures { failures_of result ≡ 0 }
    {
        Through {
            writer,
            failures: 0,
        }
    }

    /// Hands the writer back.
    pub fn into_inner(self) -> W
        ensures { result ≡ writer_of self }
    {
        let Through {
            writer,
            failures: _,
        } = self;
        writer
    }
}

impl<W: Write> Outlet for Through<W> {
    ghost use Rattle.dep_types.specs.Through.{writer_of, failures_of};

    ghost taken = { λ t. W.contents (writer_of t) };

    ghost failures = { λ t. failures_of t };

    fn write(&mut self, bytes: &[u8]) -> Result<(), WriteFailed> {
        let mut rest = bytes;
        while !rest.is_empty() {
            match self.writer.write(rest) {
                Ok(n) if n > 0 => rest = &rest[n..],
                _ => {
                    self.failures = self.failures.saturating_add(1);
                    return Err(WriteFailed);
                }
            }
        }
        Ok(())
    }
}
