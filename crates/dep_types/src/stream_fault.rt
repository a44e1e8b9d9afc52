//! Why a content was not sent.
ghost use Rattle.std.specs.Prelude.{◌≡◌};
ghost use Rattle.dep_types.specs.StoreFaults.{stream_fault_number, stream_fault_for};

use crate::outlet::WriteFailed;
use crate::store_fault::StoreFault;
use std::error::Error;
use std::fmt;

/// Why a content was not sent, or not to its end.
#[derive(Clone, Copy, Debug)]
pub enum StreamFault {
    /// The outlet took no more.
    Writer,
    /// The store failed.
    Store,
    /// Memory was refused.
    Memory,
    /// No file has that number.
    NoSuchFile,
}

impl StreamFault {
    /// The number of the fault, 1 to 4.
    pub fn number(self) -> u8
        ensures { result ≡ stream_fault_number self }
    {
        match self {
            StreamFault::Writer => 1,
            StreamFault::Store => 2,
            StreamFault::Memory => 3,
            StreamFault::NoSuchFile => 4,
        }
    }
}

impl fmt::Display for StreamFault {
    fn fmt<W: fmt::Write>(&self, f: &mut fmt::Formatter<W>) -> fmt::Result {
        f.write_str(match self {
            StreamFault::Writer => "the outlet failed",
            StreamFault::Store => "the store failed",
            StreamFault::Memory => "out of memory",
            StreamFault::NoSuchFile => "no such file",
        })
    }
}

impl Error for StreamFault {}

impl From<StoreFault> for StreamFault {
    ghost from_gives = { λ fault reported. reported ≡ stream_fault_for fault };

    fn from(fault: StoreFault) -> StreamFault {
        match fault {
            StoreFault::Store => StreamFault::Store,
            StoreFault::Memory => StreamFault::Memory,
        }
    }
}

impl From<WriteFailed> for StreamFault {
    ghost use Rattle.dep_types.specs.declared.stream_fault.StreamFault.TheVariants.{Writer};

    ghost from_gives = { λ _ fault. fault ≡ Writer };

    fn from(_error: WriteFailed) -> StreamFault {
        StreamFault::Writer
    }
}
