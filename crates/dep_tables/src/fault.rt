//! Faults of the store.

ghost use Rattle.std.specs.Prelude.{◌≡◌};
ghost use Rattle.dep_tables.specs.Faults.{fault_for};

use dep_types::StoreFault;
use sqlite::{Error, ErrorCode};

/// Returns `Memory` where memory was refused, and `Store` for every other error of SQLite.
pub fn fault_of(error: Error) -> StoreFault
    ensures { result ≡ fault_for error }
{
    match error {
        Error::SqliteFailure(ErrorCode::OutOfMemory) => StoreFault::Memory,
        _ => StoreFault::Store,
    }
}
