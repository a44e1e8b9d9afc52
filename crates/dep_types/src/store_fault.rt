//! Why the store did not do what it was asked.
ghost use Rattle.std.specs.Prelude.{◌≡◌};
ghost use Rattle.dep_types.specs.StoreFaults.{store_fault_number};

use std::alloc::{AllocError, AllocFailed};
use std::error::Error;
use std::fmt;

/// Why the store did not do what it was asked.
#[derive(Clone, Copy, Debug)]
pub enum StoreFault {
    /// The database failed, or holds what this store does not write, or the statement was refused.
    Store,
    /// Memory was refused.
    Memory,
}

impl StoreFault {
    /// The number of the fault, behind those of the refusals: 20 or 21.
    pub fn number(self) -> u8
        ensures { result ≡ store_fault_number self }
    {
        match self {
            StoreFault::Store => 20,
            StoreFault::Memory => 21,
        }
    }
}

impl fmt::Display for StoreFault {
    fn fmt<W: fmt::Write>(&self, f: &mut fmt::Formatter<W>) -> fmt::Result {
        f.write_str(match self {
            StoreFault::Store => "the store failed",
            StoreFault::Memory => "out of memory",
        })
    }
}

impl Error for StoreFault {}

impl From<AllocError> for StoreFault {
    ghost use Rattle.dep_types.specs.declared.store_fault.StoreFault.TheVariants.{Memory};

    ghost from_gives = { λ _ fault. fault ≡ Memory };

    fn from(_error: AllocError) -> StoreFault {
        StoreFault::Memory
    }
}

impl<T: Drop> From<AllocFailed<T>> for StoreFault {
    ghost use Rattle.dep_types.specs.declared.store_fault.StoreFault.TheVariants.{Memory};

    ghost from_gives = { λ _ fault. fault ≡ Memory };

    fn from(_error: AllocFailed<T>) -> StoreFault {
        StoreFault::Memory
    }
}
