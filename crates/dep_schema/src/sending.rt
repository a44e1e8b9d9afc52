//! The blocks of an owner, sent one at a time.

ghost use Rattle.std.specs.Prelude.{◌≡◌, ◌≢◌, ◌⊎◌, ◌≤◌, ◌<◌, IfOk, Err, length};
ghost use Rattle.sqlite.specs.Order.{column};
ghost use Rattle.dep_tables.specs.Rows.{IsBytesValue};
ghost use Rattle.dep_tables.specs.Tables.{IsOurs};
ghost use Rattle.dep_schema.specs.Clauses.{LeavesOver, FailsOver, GivesOver};
ghost use Rattle.dep_schema.specs.Causes.{FailsToSendBlocks};
ghost use Rattle.dep_schema.specs.Faults.{BlamesOutlet};
ghost use Rattle.dep_schema.specs.Sent.{blob_of, GivesSized, SendsBlocksOf};

use crate::query::blocks_query;
use dep_tables::{BlockOwner, fault_of, is_storable_owner, owner_params};
use dep_types::{Outlet, StreamFault};
use sqlite::types::ValueRef;
use sqlite::{Alter, Connection, Row};

/// Sends the bytes of a block, if it has no more than so many bytes, and returns how many it has.
fn give_sized<O: Outlet>(row: &Row, most: u64, out: &mut O) -> Result<u64, StreamFault>
    ensures gives { GivesSized (O.taken out.old) (O.taken out.new) (blob_of row.now) result }
    ensures fits { IfOk result (λ n. n ≤ most) }
    ensures refused { result ≡ Err StreamFault.Store
        → (¬ (IsBytesValue (column row.now 2))) ⊎ (most < length (blob_of row.now)) }
    ensures outlet { BlamesOutlet StreamFault.Writer (O.failures out.old) (O.failures out.new) result }
{
    let Ok(ValueRef::Blob(bytes)) = row.get_ref(2) else {
        return Err(StreamFault::Store);
    };
    let size = bytes.len() as u64;
    if size > most {
        return Err(StreamFault::Store);
    }
    out.write(bytes)?;
    Ok(size)
}

/// Sends the blocks of an owner, by part and place, up to so many bytes in all. It holds one block at
/// a time. A number of 2^63 or more is a fault of the store.
pub fn stream_blocks<S: Alter, O: Outlet>(
    connection: &mut Connection<S>,
    owner: BlockOwner,
    size: u64,
    out: &mut O,
) -> Result<(), StreamFault>
    ensures streams { GivesOver IsOurs S.Store connection.old connection.new
        (O.taken out.old) (O.taken out.new) (SendsBlocksOf owner size result) }
    ensures why { FailsOver IsOurs S.Store connection.old connection.new result
        (FailsToSendBlocks owner size) }
    ensures leaves { LeavesOver S.Store connection.old connection.new result }
    ensures outlet { BlamesOutlet StreamFault.Writer (O.failures out.old) (O.failures out.new) result }
    ensures there { result ≢ Err StreamFault.NoSuchFile }
{
    if size == 0 {
        return Ok(());
    }
    if !is_storable_owner(owner) {
        return Err(StreamFault::Store);
    }
    let mut left = size;
    // With `map_err` no proof would know what a failure leaves of the connection.
    let mut rows = match connection.query(blocks_query(), &owner_params(owner)) {
        Ok(rows) => rows,
        Err(error) => return Err(StreamFault::from(fault_of(error))),
    };
    'rows: for _ in 0..u64::MAX {
        let row = match rows.next() {
            Ok(Some(row)) => row,
            Ok(None) => return Err(StreamFault::Store),
            Err(error) => return Err(StreamFault::from(fault_of(error))),
        };
        left -= give_sized(row, left, out)?;
        if left == 0 {
            return Ok(());
        }
    }
    Err(StreamFault::Store)
}
