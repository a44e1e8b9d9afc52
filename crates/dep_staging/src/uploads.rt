//! Uploads that are opened and dropped.

ghost use Rattle.std.specs.Prelude.{◌≡◌, ◌<◌, ◌^◌, None, OnOk};
ghost use Rattle.std.specs.FinMap as finmap;
ghost use Rattle.dep_types.specs.State.{Upload};
ghost use Rattle.dep_row_maps.specs.Clauses.{ChangesMaps, ChangesTables, FromMaps};
ghost use Rattle.dep_row_maps.specs.Laws.{without_upload_rows};
ghost use Rattle.dep_staging.specs.Changing.{Opens};

use dep_files::delete_blocks;
use dep_tables::{
    BlockOwner, Statements, UploadColumns, delete_segments, delete_sha512, delete_upload,
    insert_sha512, insert_upload,
};
use dep_types::{StoreFault, UploadRow};

/// Opens an upload that has no segment yet, and keeps the SHA-512 that was promised of it. It is a
/// fault of the store where its number is taken, and where a number is 2^63 or more.
pub fn open_upload<T: Statements>(tx: &mut T, row: &UploadRow) -> Result<(), StoreFault>
    ensures does { ChangesMaps T.lenders T.state tx.old tx.new result (Opens row.now) }
    ensures free { FromMaps (T.state tx.old) (T.state tx.new)
        (λ s. OnOk result (finmap.get s.uploads row.now.upload ≡ None)) }
{
    insert_upload(tx, &UploadColumns::of_row(row))?;
    match &row.sha512 {
        Some(value) => insert_sha512(tx, BlockOwner::Upload(row.upload), value),
        None => Ok(()),
    }
}

/// Drops an upload with its segments, their bytes and the SHA-512 that was promised of it, if there
/// is one of this number. A number of 2^63 or more is a fault of the store.
pub fn drop_upload<T: Statements>(tx: &mut T, upload: u64) -> Result<(), StoreFault>
    ensures does { ChangesMaps T.lenders T.state tx.old tx.new result
        (λ s becomes. becomes (record s { uploads = finmap.remove s.uploads upload })) }
{
    delete_blocks(tx, BlockOwner::Upload(upload))?;
    forget_upload(tx, upload)
}

/// Deletes the row of an upload, those of its segments and the SHA-512 that was promised of it, and
/// leaves the bytes.
pub(crate) fn forget_upload<T: Statements>(tx: &mut T, upload: u64) -> Result<(), StoreFault>
    ensures does { ChangesTables T.lenders T.state tx.old tx.new result (without_upload_rows upload) }
{
    delete_sha512(tx, BlockOwner::Upload(upload))?;
    delete_segments(tx, upload)?;
    delete_upload(tx, upload)
}
