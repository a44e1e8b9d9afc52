//! The digests of the blocks of an owner, read one at a time.

ghost use Rattle.std.specs.Prelude.{◌≡◌, ◌++◌, ℕ, List, None, IfErr, OnOk};
ghost use Rattle.sqlite.specs.Order.{column};
ghost use Rattle.dep_fixity.specs.Fixity.{HashesMessage};
ghost use Rattle.dep_types.specs.declared.store_fault.StoreFault.TheVariants.{Store};
ghost use Rattle.dep_tables.specs.Rows.{IsBytesValue};
ghost use Rattle.dep_tables.specs.Tables.{IsKnown};
ghost use Rattle.dep_schema.specs.Clauses.{FindsOver};
ghost use Rattle.dep_schema.specs.Sent.{blob_of};
ghost use Rattle.dep_schema.specs.Fixity.{AreDigestsOf};
ghost use Rattle.dep_schema.specs.Causes.{FailsToGiveBlocks};

use crate::query::blocks_query;
use crate::watch::Watch;
use dep_fixity::{Digests, Hasher};
use dep_tables::{BlockOwner, fault_of, is_storable_owner, owner_params};
use dep_types::StoreFault;
use sqlite::types::ValueRef;
use sqlite::{Alter, Connection, Row};

fn hash_row<W: Watch>(row: &Row, hasher: &mut Hasher, watch: &mut W) -> Result<(), StoreFault>
    ensures refused { IfErr result
        (λ fault. (¬ (IsBytesValue (column row.now 2))) × (fault ≡ Store)) }
    ensures holds { OnOk result ((message : List ℕ) → HashesMessage hasher.old message
        → HashesMessage hasher.new (message ++ blob_of row.now)) }
{
    match row.get_ref(2) {
        Ok(ValueRef::Blob(bytes)) => {
            hasher.update(bytes);
            watch.advance(bytes.len() as u64);
            Ok(())
        }
        _ => Err(StoreFault::Store),
    }
}

/// Returns the digests of the blocks of an owner, joined by part and place, over the tables of any version.
/// Each block is read once, and one is held at a time; its length is passed to `watch`. A number of 2^63 or
/// more is a fault of the store, and so is a block that has no bytes.
pub(crate) fn hash_blocks<S: Alter, W: Watch>(
    connection: &mut Connection<S>,
    owner: BlockOwner,
    watch: &mut W,
) -> Result<Digests, StoreFault>
    ensures { FindsOver IsKnown S.Store connection.old connection.new result
        (λ t. AreDigestsOf t owner) (FailsToGiveBlocks owner None) }
{
    if !is_storable_owner(owner) {
        return Err(StoreFault::Store);
    }
    let mut hasher = Hasher::new();
    // With `map_err` no proof would know what a failure leaves of the connection.
    let mut rows = match connection.query(blocks_query(), &owner_params(owner)) {
        Ok(rows) => rows,
        Err(error) => return Err(fault_of(error)),
    };
    'rows: for _ in 0..u64::MAX {
        let row = match rows.next() {
            Ok(Some(row)) => row,
            Ok(None) => return Ok(hasher.finish()),
            Err(error) => return Err(fault_of(error)),
        };
        hash_row(row, &mut hasher, watch)?;
    }
    Err(StoreFault::Store)
}
