//! Outlets that hold bytes back.
ghost use Rattle.std.specs.Prelude.{◌≡◌, ℕ, Bool, List, [], true, false, OnOk, OnErr};
ghost use Rattle.std.specs.Io.KnownBytes.{Keeps};

use dep_types::{Outlet, Through};
use std::error::Error;
use std::fmt;
use std::io::Write;

/// An outlet gave up: some of what it held back was not sent, and never will be.
#[derive(Clone, Copy, Debug)]
pub struct FlushFailed;

impl fmt::Display for FlushFailed {
    fn fmt<W: fmt::Write>(&self, f: &mut fmt::Formatter<W>) -> fmt::Result {
        f.write_str("what was held back was not sent")
    }
}

impl Error for FlushFailed {}

/// An outlet that may hold back bytes that it took, so that what belongs together goes out together.
/// They go out in their order, all of them where no write fails.
pub trait Flush: Outlet {
    /// The bytes that it holds back.
    ghost held: { Self → List ℕ };

    /// Whether it gave up, since some of what it held back could not be sent.
    ghost has_failed: { Self → Bool };

    /// Sends what it holds back. It fails where it gives up, or gave up before.
    fn flush(&mut self) -> Result<(), FlushFailed>
        ensures sends { OnOk result (held self.new ≡ []) }
        ensures ok { OnOk result (has_failed self.new ≡ false) }
        ensures err { OnErr result (has_failed self.new ≡ true) }
        ensures taken { Keeps (Self.taken self.old) (Self.taken self.new) }
        ensures failures { Self.failures self.new ≡ Self.failures self.old };
}

impl<W: Write> Flush for Through<W> {
    ghost held = { λ _. [] };

    ghost has_failed = { λ _. false };

    // It holds nothing back.
    fn flush(&mut self) -> Result<(), FlushFailed> {
        Ok(())
    }
}
