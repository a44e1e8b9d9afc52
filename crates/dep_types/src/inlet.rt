//! Where the bytes of requests come from.
ghost use Rattle.std.specs.Prelude.{◌≡◌, ℕ, List, Option, None};
ghost use Rattle.std.specs.Io.{ReadsAtMost};
ghost use Rattle.std.specs.Io.KnownBytes.{ReadConsumes};
ghost use Rattle.dep_types.specs.Writing.{next_count};
ghost use Rattle.dep_types.specs.Reading.{end_of_read};
ghost use Rattle.dep_types.specs.declared.inlet.LastRead.{LastRead};

use std::error::Error;
use std::fmt;

/// A read failed, and gave nothing.
#[derive(Clone, Copy, Debug)]
pub struct ReadFailed;

impl fmt::Display for ReadFailed {
    fn fmt<W: fmt::Write>(&self, f: &mut fmt::Formatter<W>) -> fmt::Result {
        f.write_str("a read failed")
    }
}

impl Error for ReadFailed {}

/// How the last read of an inlet ended.
#[derive(Clone, Copy)]
pub enum LastRead {
    /// No read was made.
    NoneYet,
    /// It gave a byte or more.
    Bytes,
    /// It gave nothing: there is no more, or the buffer has no room.
    Nothing,
    /// It failed.
    Failed,
}

/// Where the bytes of requests come from. It counts its reads, and keeps how the last one ended.
pub trait Inlet {
    /// The bytes that are left, where it shows them.
    ghost unread: { Self → Option (List ℕ) } = { λ _. None };

    /// How many reads were made, those that failed too.
    ghost reads: { Self → ℕ };

    /// How the last of them ended.
    ghost last: { Self → LastRead };

    /// Reads once, to the prefix of the buffer, and returns how many bytes it gave. It gives none only where
    /// there are no more, or where the buffer has no room.
    fn read(&mut self, buffer: &mut [u8]) -> Result<usize, ReadFailed>
        ensures bound { ReadsAtMost result buffer.new }
        ensures bytes { ReadConsumes (unread self.old) (unread self.new) result buffer.new }
        ensures count { reads self.new ≡ next_count (reads self.old) }
        ensures last { last self.new ≡ end_of_read result };
}
