//! Where reply bytes go.
ghost use Rattle.std.specs.Prelude.{◌≡◌, ℕ, List, Option, None, OnOk, OnErr};
ghost use Rattle.std.specs.Io.KnownBytes.{Appends};
ghost use Rattle.dep_types.specs.Writing.{TakesPart, HasRisen};

use std::error::Error;
use std::fmt;

/// A write failed, after a proper prefix of its bytes.
#[derive(Clone, Copy, Debug)]
pub struct WriteFailed;

impl fmt::Display for WriteFailed {
    fn fmt<W: fmt::Write>(&self, f: &mut fmt::Formatter<W>) -> fmt::Result {
        f.write_str("a write failed")
    }
}

impl Error for WriteFailed {}

/// Where reply bytes go. It holds the bytes that it took and counts its failures.
pub trait Outlet {
    /// The bytes that it took, where it shows them.
    ghost taken: { Self → Option (List ℕ) } = { λ _. None };

    /// How many of its writes failed.
    ghost failures: { Self → ℕ };

    /// Takes all of the bytes, or fails after a proper prefix of them. A write of no bytes does
    /// not fail.
    fn write(&mut self, bytes: &[u8]) -> Result<(), WriteFailed>
        ensures ok { OnOk result (Appends (taken self.old) (taken self.new) bytes.now) }
        ensures err { OnErr result (TakesPart (taken self.old) (taken self.new) bytes.now) }
        ensures count { OnOk result (failures self.new ≡ failures self.old) }
        ensures cause { OnErr result (HasRisen (failures self.old) (failures self.new)) };
}
