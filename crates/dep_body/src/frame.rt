//! What frames a body.
ghost use Rattle.std.specs.Prelude.{◌≡◌};
ghost use Rattle.dep_body.specs.Faults.{frame_fault_number};

use std::error::Error;
use std::fmt;

/// How many bytes of a stream are a request's body.
#[derive(Clone, Copy)]
pub enum Framing {
    /// There is no body.
    Empty,
    /// The body has so many bytes.
    Length(u64),
    /// The body is in chunks (RFC 9112, section 7.1).
    Chunked,
}

/// Why a body can't be read.
#[derive(Clone, Copy, Debug)]
pub enum FrameFault {
    /// The fields that frame the body, or its chunks, are malformed.
    Bad,
    /// The body has more bytes than are allowed.
    TooLarge,
}

impl FrameFault {
    /// The number of the fault: 1 or 2.
    pub fn number(self) -> u8
        ensures { result ≡ frame_fault_number self }
    {
        match self {
            FrameFault::Bad => 1,
            FrameFault::TooLarge => 2,
        }
    }
}

impl fmt::Display for FrameFault {
    fn fmt<W: fmt::Write>(&self, f: &mut fmt::Formatter<W>) -> fmt::Result {
        f.write_str(match self {
            FrameFault::Bad => "the body is malformed",
            FrameFault::TooLarge => "the body is too large",
        })
    }
}

impl Error for FrameFault {}
