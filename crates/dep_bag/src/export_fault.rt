//! Why a bag was not exported whole.
ghost use Rattle.std.specs.Prelude.{◌≡◌};
ghost use Rattle.dep_bag.specs.ExportFaults.{export_fault_for, unsent_fault};
ghost use Rattle.dep_bag.specs.declared.export_fault.ExportFault.TheVariants.{Sink, Memory};

use dep_types::{SinkFailed, StoreFault, StreamFault, WriteFailed};
use std::alloc::AllocError;
use std::error::Error;
use std::fmt;

/// Why a bag was not exported whole.
#[derive(Clone, Copy, Debug)]
pub enum ExportFault {
    /// There is no such object. Nothing was given to the sink.
    NoSuchObject,
    /// The sink failed.
    Sink,
    /// The source failed.
    Store,
    /// Memory was refused.
    Memory,
}

impl ExportFault {
    ghost use Rattle.dep_bag.specs.ExportFaults.{export_fault_number};

    /// The number of the fault, 1 to 4.
    pub fn number(self) -> u8
        ensures { result ≡ export_fault_number self }
    {
        match self {
            ExportFault::NoSuchObject => 1,
            ExportFault::Sink => 2,
            ExportFault::Store => 3,
            ExportFault::Memory => 4,
        }
    }
}

impl fmt::Display for ExportFault {
    fn fmt<W: fmt::Write>(&self, f: &mut fmt::Formatter<W>) -> fmt::Result {
        f.write_str(match self {
            ExportFault::NoSuchObject => "no such object",
            ExportFault::Sink => "the sink failed",
            ExportFault::Store => "the store failed",
            ExportFault::Memory => "out of memory",
        })
    }
}

impl Error for ExportFault {}

impl From<AllocError> for ExportFault {
    ghost from_gives = { λ _ fault. fault ≡ Memory };

    fn from(_error: AllocError) -> ExportFault {
        ExportFault::Memory
    }
}

impl From<SinkFailed> for ExportFault {
    ghost from_gives = { λ _ fault. fault ≡ Sink };

    fn from(_error: SinkFailed) -> ExportFault {
        ExportFault::Sink
    }
}

impl From<WriteFailed> for ExportFault {
    ghost from_gives = { λ _ fault. fault ≡ Sink };

    fn from(_error: WriteFailed) -> ExportFault {
        ExportFault::Sink
    }
}

impl From<StoreFault> for ExportFault {
    ghost from_gives = { λ fault reported. reported ≡ export_fault_for fault };

    fn from(fault: StoreFault) -> ExportFault {
        match fault {
            StoreFault::Store => ExportFault::Store,
            StoreFault::Memory => ExportFault::Memory,
        }
    }
}

impl From<StreamFault> for ExportFault {
    ghost from_gives = { λ fault reported. reported ≡ unsent_fault fault };

    fn from(fault: StreamFault) -> ExportFault {
        match fault {
            StreamFault::Writer => ExportFault::Sink,
            // The file was listed: a store that lacks it has failed.
            StreamFault::Store | StreamFault::NoSuchFile => ExportFault::Store,
            StreamFault::Memory => ExportFault::Memory,
        }
    }
}
