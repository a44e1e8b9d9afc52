//! The content of a file, sent one block at a time.

ghost use Rattle.dep_tables.specs.Tables.{IsOurs};
ghost use Rattle.dep_schema.specs.Clauses.{FailsOver, GivesOver, ReadsOverTables};
ghost use Rattle.dep_schema.specs.Faults.{BlamesOutlet};
ghost use Rattle.dep_schema.specs.Sent.{SendsFile};
ghost use Rattle.dep_schema.specs.Causes.{FailsToSendFile};

use crate::sending::stream_blocks;
use crate::sizes::find_size;
use dep_tables::BlockOwner;
use dep_types::{Outlet, StreamFault};
use sqlite::{Alter, Connection};

/// Sends the content of a file. It holds one block at a time, and asks for no more of them than the
/// file has bytes. A number of 2^63 or more is a fault of the store.
pub fn stream_content<S: Alter, O: Outlet>(
    connection: &mut Connection<S>,
    file: u64,
    out: &mut O,
) -> Result<(), StreamFault>
    ensures streams { GivesOver IsOurs S.Store connection.old connection.new
        (O.taken out.old) (O.taken out.new) (SendsFile file result) }
    ensures why { FailsOver IsOurs S.Store connection.old connection.new result
        (FailsToSendFile file) }
    ensures reads { ReadsOverTables S.Store connection.old connection.new result }
    ensures outlet { BlamesOutlet StreamFault.Writer (O.failures out.old) (O.failures out.new) result }
{
    let Some(found) = find_size(connection, file)? else {
        return Err(StreamFault::NoSuchFile);
    };
    stream_blocks(connection, BlockOwner::File(file), found.size, out)
}
