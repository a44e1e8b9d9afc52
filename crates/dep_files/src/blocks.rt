//! The blocks of a content, written one at a time and deleted run by run.

ghost use Rattle.std.specs.Prelude.{◌<◌, ◌^◌};
ghost use Rattle.dep_tables.specs.Edits.{without_blocks_of};
ghost use Rattle.dep_row_maps.specs.Laws.{with_content};
ghost use Rattle.dep_row_maps.specs.Clauses.{ChangesTables};

use crate::content::Content;
use dep_tables::{
    BlockKey, BlockOwner, BlockPlace, Statements, delete_run, first_block, insert_block, run_end,
};
use dep_types::StoreFault;

/// Writes a content as a part of an owner, each byte once. It is a fault of the store where the
/// owner has a block of this part at one of its places, and where a number is 2^63 or more.
pub fn put_blocks<T: Statements, C: Content>(
    tx: &mut T,
    owner: BlockOwner,
    part: u64,
    content: &C,
) -> Result<(), StoreFault>
    ensures does { ChangesTables T.lenders T.state tx.old tx.new result
        (with_content owner part (C.bytes content.now)) }
{
    for place in 0..content.count() {
        let at = BlockPlace {
            part,
            place: place as u64,
        };
        insert_block(tx, &BlockKey { owner, at }, content.block(place))?;
    }
    Ok(())
}

/// Deletes the blocks of an owner, run by run, since one statement holds all rows that it deletes. A
/// number of 2^63 or more is a fault of the store.
pub fn delete_blocks<T: Statements>(tx: &mut T, owner: BlockOwner) -> Result<(), StoreFault>
    ensures does { ChangesTables T.lenders T.state tx.old tx.new result (without_blocks_of owner) }
{
    'runs: for passed in 0..u64::MAX {
        let Some(start) = first_block(tx, owner)? else {
            return Ok(());
        };
        let at = run_end(start);
        delete_run(tx, &BlockKey { owner, at })?;
    }
    // What so many runs leave, if anything, is deleted at once.
    dep_tables::delete_blocks(tx, owner)
}
