//! The content of a file, sent over a store that is open.

ghost use Rattle.std.specs.Prelude.{◌≡◌, false};
ghost use Rattle.sqlite.specs.Held.{state};
ghost use Rattle.dep_store.specs.Caching.{IsKnownFile};
ghost use Rattle.dep_store.specs.Shut.{StoreSendsFile};

use dep_answers::StoredFile;
use dep_schema::{stream_blocks, stream_content};
use dep_tables::BlockOwner;
use dep_transactions::check_open;
use dep_types::{Outlet, StreamFault};
use sqlite::{Alter, Connection};

/// Sends the content of the file of this number, one block at a time. Of a file that is known to be there the store is known
/// to be open. Where another one is known, or none, its size is asked for; over a store that was shut it isn't.
pub(crate) fn stream_known<S: Alter, O: Outlet>(
    connection: &mut Connection<S>,
    known: Option<StoredFile>,
    file: u64,
    out: &mut O,
) -> Result<(), StreamFault>
    requires settled { (state S.Store connection.old).in_transaction ≡ false }
    requires there { IsKnownFile (state S.Store connection.old) known }
    ensures sends { StoreSendsFile (state S.Store connection.old) (state S.Store connection.new)
        (O.taken out.old) (O.taken out.new) (O.failures out.old) (O.failures out.new) file result }
{
    if let Some(it) = known {
        if it.file == file {
            return stream_blocks(connection, BlockOwner::File(file), it.size, out);
        }
    }
    check_open(connection)?;
    stream_content(connection, file, out)
}
