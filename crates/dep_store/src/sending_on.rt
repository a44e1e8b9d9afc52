//! A few blocks more of the content of a file, sent over a store that is open.

ghost use Rattle.std.specs.Prelude.{◌≡◌, ◌<◌, false};
ghost use Rattle.sqlite.specs.Held.{state};
ghost use Rattle.dep_schema.specs.Faults.{BlamesOutlet};
ghost use Rattle.dep_store.specs.Caching.{IsKnownFile};
ghost use Rattle.dep_store.specs.SendingOn.{FindsSize, GivesNext, SendsNextBlocks};

use crate::read_transaction::{FindFile, NextBytes, read_if_open};
use dep_answers::StoredFile;
use dep_types::{Outlet, StoreFault, StreamFault};
use sqlite::{Alter, Connection};
use std::alloc::Global;

/// How many bytes are sent at once at most: those of four blocks.
const BYTES_AT_ONCE: usize = 262_144;

/// From where on the content of a file is to be sent.
#[derive(Clone, Copy)]
pub(crate) struct SendingPlace {
    pub(crate) it: StoredFile,
    /// How many of its bytes were sent.
    pub(crate) start: u64,
}

/// How many bytes a file has that is there. Of one that is known to be there nothing is asked, and the store is known to be
/// open; else its row is read. Where there is none, that is a fault of the store.
pub(crate) fn find_size<S: Alter>(
    connection: &mut Connection<S>,
    known: Option<StoredFile>,
    it: StoredFile,
) -> Result<u64, StoreFault>
    requires settled { (state S.Store connection.old).in_transaction ≡ false }
    requires there { IsKnownFile (state S.Store connection.old) known }
    ensures { FindsSize (state S.Store connection.old) (state S.Store connection.new) it result }
{
    if let Some(one) = known {
        if one.object == it.object && one.file == it.file {
            return Ok(one.size);
        }
    }
    let mut asked = FindFile {
        object: it.object,
        file: it.file,
    };
    let found = read_if_open(connection, &mut asked)?;
    match found {
        Some(row) => Ok(row.size),
        None => Err(StoreFault::Store),
    }
}

/// Sends the next bytes of a content that has so many, and returns how many of them are sent then, or `None` where all are. None
/// at all, more than it has left and more than are sent at once are a fault of the store: nothing is sent.
fn give_next<O: Outlet>(
    bytes: &[u8],
    start: u64,
    size: u64,
    out: &mut O,
) -> Result<Option<u64>, StreamFault>
    requires { start < size }
    ensures gives { GivesNext (O.taken out.old) (O.taken out.new) bytes.now start size result }
    ensures outlet { BlamesOutlet StreamFault.Writer (O.failures out.old) (O.failures out.new) result }
{
    let left = size - start;
    let count = bytes.len() as u64;
    if count == 0 || count > left || bytes.len() > BYTES_AT_ONCE {
        return Err(StreamFault::Store);
    }
    out.write(bytes)?;
    if count == left {
        return Ok(None);
    }
    Ok(Some(start + count))
}

/// Sends the next bytes of a content from a place on: what up to four blocks have, read in a transaction that is given back
/// before they are sent. Where it has none from there on, nothing is read.
pub(crate) fn send_on<S: Alter, O: Outlet>(
    connection: &mut Connection<S>,
    alloc: Global,
    known: Option<StoredFile>,
    place: SendingPlace,
    out: &mut O,
) -> Result<Option<u64>, StreamFault>
    requires settled { (state S.Store connection.old).in_transaction ≡ false }
    requires there { IsKnownFile (state S.Store connection.old) known }
    ensures sends { SendsNextBlocks (state S.Store connection.old) (state S.Store connection.new)
        (O.taken out.old) (O.taken out.new) (O.failures out.old) (O.failures out.new)
        place.it place.start result }
{
    let size = find_size(connection, known, place.it)?;
    if place.start >= size {
        return Ok(None);
    }
    let mut asked = NextBytes {
        alloc,
        file: place.it.file,
        start: place.start,
    };
    let bytes = read_if_open(connection, &mut asked)?;
    give_next(bytes.as_slice(), place.start, size, out)
}
