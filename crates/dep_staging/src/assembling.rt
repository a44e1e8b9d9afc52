//! A file made of an upload.

ghost use Rattle.std.specs.Prelude.{◌≡◌, ◌<◌, ◌^◌, ℕ, Some, None, OnOk};
ghost use Rattle.std.specs.FinMap as finmap;
ghost use Rattle.dep_types.specs.State.{File, Upload, file_at};
ghost use Rattle.dep_tables.specs.Edits.{with_blocks_moved};
ghost use Rattle.dep_tables.specs.declared.owner.BlockOwner.TheVariants as owner;
ghost use Rattle.dep_row_maps.specs.Clauses.{ChangesMaps, ChangesTables, FromMaps};
ghost use Rattle.dep_staging.specs.Changing.{Assembles};

use crate::uploads::forget_upload;
use dep_tables::{
    BlockKey, BlockOwner, Statements, first_block, insert_file, insert_sha512, move_blocks,
    move_run, run_end,
};
use dep_types::{FileRow, StoreFault, UploadRow};

/// Gives the blocks of an upload to a file, run by run, since one statement holds all rows that it moves.
fn move_content<T: Statements>(tx: &mut T, upload: u64, file: u64) -> Result<(), StoreFault>
    ensures does { ChangesTables T.lenders T.state tx.old tx.new result
        (with_blocks_moved (owner.Upload upload) (owner.File file)) }
{
    'runs: for passed in 0..u64::MAX {
        let Some(start) = first_block(tx, BlockOwner::Upload(upload))? else {
            return Ok(());
        };
        let at = run_end(start);
        let end = BlockKey {
            owner: BlockOwner::Upload(upload),
            at,
        };
        move_run(tx, &end, BlockOwner::File(file))?;
    }
    // What so many runs leave, if anything, is moved at once.
    move_blocks(tx, BlockOwner::Upload(upload), BlockOwner::File(file))
}

/// Makes a file of an upload each of whose segments was received: its bytes become the file's, and
/// the upload goes with its segments and what was promised of it. It is a fault of the store where
/// the number of the file is taken, and where a number is 2^63 or more.
pub fn assemble<T: Statements>(
    tx: &mut T,
    upload: &UploadRow,
    row: &FileRow,
    sha512: &[u8; 64],
) -> Result<(), StoreFault>
    ensures does { ChangesMaps T.lenders T.state tx.old tx.new result
        (Assembles upload.now row.now sha512.now) }
    ensures free { FromMaps (T.state tx.old) (T.state tx.new)
        (λ s. OnOk result ((n : ℕ) → file_at s n row.now.file ≡ None)) }
{
    move_content(tx, upload.upload, row.file)?;
    forget_upload(tx, upload.upload)?;
    insert_sha512(tx, BlockOwner::File(row.file), sha512)?;
    insert_file(tx, row)
}
