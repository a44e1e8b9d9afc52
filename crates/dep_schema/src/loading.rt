//! The content of a file as a whole.

ghost use Rattle.dep_tables.specs.Tables.{IsOurs};
ghost use Rattle.dep_schema.specs.Clauses.{StaysOver, ReportsOver, FailsOver};
ghost use Rattle.dep_schema.specs.Reading.{IsLoadedFrom};
ghost use Rattle.dep_schema.specs.Causes.{FailsToLoad};

use crate::streaming::stream_content;
use dep_types::{Octets, StoreFault, StreamFault, Through};
use sqlite::{Alter, Connection};
use std::alloc::Global;

/// Returns the content of a file as a whole, if there is a file of this number. It takes memory for all of
/// it, so the server never calls it: `stream_content` holds one block at a time. A number of 2^63 or more is
/// a fault of the store.
pub fn load_content<S: Alter>(
    connection: &mut Connection<S>,
    alloc: Global,
    file: u64,
) -> Result<Option<Octets>, StoreFault>
    ensures loads { ReportsOver IsOurs S.Store connection.old connection.new result
        (IsLoadedFrom file) }
    ensures cause { FailsOver IsOurs S.Store connection.old connection.new result
        (FailsToLoad file) }
    ensures stays { StaysOver S.Store connection.old connection.new }
{
    let mut out = Through::new(Vec::new(alloc));
    match stream_content(connection, file, &mut out) {
        Ok(()) => Ok(Some(Octets::from_vec(out.into_inner()))),
        Err(StreamFault::NoSuchFile) => Ok(None),
        Err(StreamFault::Store) => Err(StoreFault::Store),
        Err(StreamFault::Memory) => Err(StoreFault::Memory),
        // The bytes are kept in memory, so that a write fails for want of it.
        Err(StreamFault::Writer) => Err(StoreFault::Memory),
    }
}
