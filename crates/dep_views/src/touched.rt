//! What is there at the numbers of an object and of a file, and at a path of a bag.

ghost use Rattle.std.specs.Prelude.{◌≡◌, ◌++◌, ⊤, IfOk, bytes_eq, map};
ghost use Rattle.std.specs.List.{list_any};
ghost use Rattle.std.specs.Option.{option_copied, option_to_list};
ghost use Rattle.dep_types.specs.BagPaths.{tag_paths};
ghost use Rattle.dep_manifest.specs.Reported.{row_path};
ghost use Rattle.dep_types.specs.Sound.{IsSound};
ghost use Rattle.dep_operations.specs.Views.{touched_file, touched_object};
ghost use Rattle.dep_row_maps.specs.Clauses.{MayFind};
ghost use Rattle.dep_views.specs.Seen.{file_at_path, path_seen};

use dep_bag::{file_number, has_bag_path};
use dep_files::find_file;
use dep_objects::find_object;
use dep_operations::Touched;
use dep_tables::Statements;
use dep_types::{FileRow, ObjectRow, StoreFault};
use std::slice;

/// The row of the object.
pub(crate) fn find_touched_object<T: Statements>(
    tx: &mut T,
    touched: &Touched,
) -> Result<Option<ObjectRow>, StoreFault>
    ensures map { MayFind T.lenders T.state tx.old tx.new result
        (λ s. IfOk result (λ found. found ≡ touched_object s touched.now)) }
{
    match touched.object {
        Some(object) => find_object(tx, object),
        None => Ok(None),
    }
}

/// The row of the file.
pub(crate) fn find_touched_file<T: Statements>(
    tx: &mut T,
    touched: &Touched,
) -> Result<Option<FileRow>, StoreFault>
    ensures map { MayFind T.lenders T.state tx.old tx.new result
        (λ s. IfOk result (λ found. found ≡ touched_file s touched.now)) }
{
    match (touched.object, touched.file) {
        (Some(object), Some(file)) => find_file(tx, object, file),
        _ => Ok(None),
    }
}

// The row of the one file of the object that can stand at the path.
fn find_file_at_path<T: Statements>(
    tx: &mut T,
    object: u64,
    path: &[u8],
) -> Result<Option<FileRow>, StoreFault>
    ensures map { MayFind T.lenders T.state tx.old tx.new result
        (λ s. IfOk result (λ found. found ≡ file_at_path s object path.now)) }
{
    match file_number(path) {
        Some(file) => find_file(tx, object, file),
        None => Ok(None),
    }
}

// Whether a bag with this payload file, or with none, has the path.
fn has_path_with(file: &Option<FileRow>, path: &[u8]) -> bool
    ensures { result
        ≡ list_any (bytes_eq path.now) (tag_paths ++ map row_path (option_to_list file.now)) }
{
    match file {
        Some(row) => has_bag_path(slice::from_ref(row), path),
        None => has_bag_path(&[], path),
    }
}

/// What is there at a path of a bag.
#[derive(Drop)]
pub(crate) struct PathSeen {
    /// Whether the bag has the path.
    pub(crate) has_path: bool,
    /// The row of the one payload file that can stand there.
    pub(crate) payload: Option<FileRow>,
}

/// What is there at the path, in the bag of the object, which was found so. No more of its files is read than the one
/// whose number the path has.
pub(crate) fn find_touched_path<T: Statements>(
    tx: &mut T,
    touched: &Touched,
    object: Option<&ObjectRow>,
) -> Result<PathSeen, StoreFault>
    ensures map { MayFind T.lenders T.state tx.old tx.new result
        (λ s. IsSound s → option_copied object.entry ≡ touched_object s touched.now
        → IfOk result (λ seen. seen ≡ path_seen s touched.now)) }
{
    match (object, &touched.path) {
        (Some(object), Some(path)) => {
            let path = path.as_slice();
            let payload = find_file_at_path(tx, object.object, path)?;
            Ok(PathSeen {
                has_path: has_path_with(&payload, path),
                payload,
            })
        }
        _ => Ok(PathSeen {
            has_path: false,
            payload: None,
        }),
    }
}
