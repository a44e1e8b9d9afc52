//! The files of an object, read without their contents.

ghost use Rattle.std.specs.Prelude.{◌≡◌, ◌≤◌, ℕ, nat_eq, max, length, take, Some, IfOk, option_map, option_and_then};
ghost use Rattle.std.specs.FinMap as finmap;
ghost use Rattle.sha2.specs.Sha512.{sha512};
ghost use Rattle.dep_types.specs.State.{File, file_at};
ghost use Rattle.dep_types.specs.Rows.{file_row, sha512s_of};
ghost use Rattle.dep_row_maps.specs.Clauses.{MayReadOver, ReadsMaps};
ghost use Rattle.dep_row_maps.specs.ReadLaws.{file_rows};
ghost use Rattle.dep_row_maps.specs.TablesAre.{files_at};
ghost use Rattle.dep_types.specs.Names.{if_passes};

use dep_tables::{BlockOwner, Statements, find_sha512};
use dep_types::{FileRow, StoreFault};

// The SHA-512 of a file, which is there.
fn load_sha512<T: Statements>(tx: &mut T, file: u64) -> Result<[u8; 64], StoreFault>
    ensures does { ReadsMaps T.lenders T.state tx.old tx.new result
        (λ s value. (n : ℕ) (it : File) → finmap.get (files_at s.objects n) file ≡ Some it
        → value ≡ sha512 it.content) }
{
    match find_sha512(tx, BlockOwner::File(file))? {
        Some(value) => Ok(value),
        None => Err(StoreFault::Store),
    }
}

// Reads the SHA-512 values of an object's files up to this place, behind those of the first of them. It is a fault of the store
// where one has none.
pub(crate) fn read_sha512s<T: Statements>(
    tx: &mut T,
    rows: &[FileRow],
    first: Vec<[u8; 64]>,
    end: usize,
) -> Result<Vec<[u8; 64]>, StoreFault>
    requires { end ≤ length rows.now }
    ensures does { MayReadOver T.lenders T.state tx.old tx.new result
        (λ s. (n : ℕ) → rows.now ≡ take (length rows.now) (file_rows n (files_at s.objects n))
        → first.items ≡ take (length first.items) (sha512s_of (files_at s.objects n))
        → IfOk result (λ values. values.items
        ≡ take (max end (length first.items)) (sha512s_of (files_at s.objects n)))) }
{
    let mut values = first;
    for place in values.len()..end {
        let value = load_sha512(tx, rows[place].file)?;
        values.push(value)?;
    }
    Ok(values)
}

fn of_object(found: Option<FileRow>, object: u64) -> Option<FileRow>
    ensures { result ≡ option_and_then (if_passes (λ row. nat_eq row.object object)) found }
{
    match found {
        Some(row) if row.object == object => Some(row),
        _ => None,
    }
}

/// The file of an object and a number, if the object has it. A number of a file of 2^63 or more is a
/// fault of the store.
pub fn find_file<T: Statements>(
    tx: &mut T,
    object: u64,
    file: u64,
) -> Result<Option<FileRow>, StoreFault>
    ensures does { ReadsMaps T.lenders T.state tx.old tx.new result
        (λ s found. found ≡ option_map (file_row object file) (file_at s object file)) }
{
    Ok(of_object(dep_tables::find_file(tx, file)?, object))
}
