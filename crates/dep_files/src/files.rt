//! The files of an object, written and deleted with their contents.

ghost use Rattle.std.specs.Prelude.{◌≡◌, ◌<◌, ◌^◌, ℕ, Some, None, OnOk, map};
ghost use Rattle.std.specs.FinMap as finmap;
ghost use Rattle.dep_types.specs.State.{Object, file_at};
ghost use Rattle.dep_row_maps.specs.Clauses.{Becomes, FromMaps, SeesState, ChangesMaps, ChangesTables};
ghost use Rattle.dep_row_maps.specs.Laws.{without_contents};
ghost use Rattle.dep_files.specs.Edits.{without_files, with_whole_file, PutsFile, DropsFile};

use crate::blocks::{delete_blocks, put_blocks};
use crate::content::Content;
use dep_tables::{BlockOwner, Statements, delete_sha512, files_of, insert_file, insert_sha512};
use dep_types::{FileRow, StoreFault};
use std::alloc::Global;

/// The part that a content has that came whole.
const ONLY_PART: u64 = 1;

/// Adds a file to an object that is there: its row, its SHA-512, and the content, each byte of which is
/// written once, as one part of number 1. It is a fault of the store where the number of the file is
/// taken, and where a number is 2^63 or more.
pub fn put_file<T: Statements, C: Content>(
    tx: &mut T,
    row: &FileRow,
    sha512: &[u8; 64],
    content: &C,
) -> Result<(), StoreFault>
    ensures does { ChangesMaps T.lenders T.state tx.old tx.new result
        (PutsFile row.now sha512.now (C.bytes content.now)) }
    ensures rows { Becomes (T.state tx.old) (T.state tx.new) result
        (with_whole_file row.now sha512.now (C.bytes content.now)) }
    ensures free { FromMaps (T.state tx.old) (T.state tx.new)
        (λ s. OnOk result ((n : ℕ) → file_at s n row.now.file ≡ None)) }
{
    put_blocks(tx, BlockOwner::File(row.file), ONLY_PART, content)?;
    insert_sha512(tx, BlockOwner::File(row.file), sha512)?;
    insert_file(tx, row)
}

/// Deletes a file with its content and its SHA-512, if there is one of this number. A number of 2^63
/// or more is a fault of the store.
pub fn delete_file<T: Statements>(tx: &mut T, file: u64) -> Result<(), StoreFault>
    ensures does { ChangesMaps T.lenders T.state tx.old tx.new result (DropsFile file) }
    ensures absent { FromMaps (T.state tx.old) (T.state tx.new)
        (λ s. ((n : ℕ) → file_at s n file ≡ None)
        → OnOk result (SeesState (T.state tx.new) s)) }
{
    delete_blocks(tx, BlockOwner::File(file))?;
    delete_sha512(tx, BlockOwner::File(file))?;
    dep_tables::delete_file(tx, file)
}

fn delete_contents<T: Statements>(tx: &mut T, rows: &[FileRow]) -> Result<(), StoreFault>
    ensures does { ChangesTables T.lenders T.state tx.old tx.new result
        (without_contents (map (λ row. row.file) rows.now)) }
{
    'rows: for row in rows {
        delete_blocks(tx, BlockOwner::File(row.file))?;
        delete_sha512(tx, BlockOwner::File(row.file))?;
    }
    Ok(())
}

/// Deletes all files of an object with their contents and their SHA-512s. It holds the rows of the
/// files. A number of 2^63 or more is a fault of the store.
pub fn delete_files<T: Statements>(tx: &mut T, alloc: Global, object: u64) -> Result<(), StoreFault>
    ensures does { ChangesMaps T.lenders T.state tx.old tx.new result
        (λ s becomes. (o : Object) → finmap.get s.objects object ≡ Some o
        → becomes (without_files s object o)) }
{
    let rows = files_of(tx, alloc, object, 0)?;
    delete_contents(tx, rows.as_slice())?;
    dep_tables::delete_files(tx, object)
}
