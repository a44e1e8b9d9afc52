//! Why a document is refused.
ghost use Rattle.std.specs.Prelude.{◌≡◌};
ghost use Rattle.dep_docs_in.specs.Faults.{document_fault_number};

use dep_params::ParamFault;
use std::alloc::{AllocError, AllocFailed};
use std::error::Error;
use std::fmt;

/// Why a document is refused.
#[derive(Clone, Copy, Debug)]
pub enum DocFault {
    /// The content is no such document.
    Malformed,
    /// There was no memory to read it.
    Memory,
}

impl DocFault {
    /// The number of the fault, 1 or 2.
    pub fn number(self) -> u8
        ensures { result ≡ document_fault_number self }
    {
        match self {
            DocFault::Malformed => 1,
            DocFault::Memory => 2,
        }
    }
}

impl fmt::Display for DocFault {
    fn fmt<W: fmt::Write>(&self, f: &mut fmt::Formatter<W>) -> fmt::Result {
        f.write_str(match self {
            DocFault::Malformed => "the content is no such document",
            DocFault::Memory => "out of memory",
        })
    }
}

impl Error for DocFault {}

impl From<AllocError> for DocFault {
    ghost use Rattle.dep_docs_in.specs.declared.fault.DocFault.TheVariants.{Memory};

    ghost from_gives = { λ _ e. e ≡ Memory };

    fn from(_error: AllocError) -> DocFault {
        DocFault::Memory
    }
}

impl<T: Drop> From<AllocFailed<T>> for DocFault {
    ghost use Rattle.dep_docs_in.specs.declared.fault.DocFault.TheVariants.{Memory};

    ghost from_gives = { λ _ e. e ≡ Memory };

    fn from(_error: AllocFailed<T>) -> DocFault {
        DocFault::Memory
    }
}

impl From<ParamFault> for DocFault {
    ghost use Rattle.dep_docs_in.specs.Faults.{fault_of_disposition};

    ghost from_gives = { λ fault e. e ≡ fault_of_disposition fault };

    fn from(fault: ParamFault) -> DocFault {
        match fault {
            ParamFault::Malformed | ParamFault::Repeated | ParamFault::NoName => {
                DocFault::Malformed
            }
            ParamFault::Memory => DocFault::Memory,
        }
    }
}
