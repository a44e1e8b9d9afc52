//! What a reply shows of the archive.

ghost use Rattle.std.specs.Prelude.{◌≡◌, ⊤, Some, None, IfSome};
ghost use Rattle.dep_answers.specs.declared.read_set.ReadSet.TheVariants as read_set;
ghost use Rattle.dep_types.specs.State.{State};
ghost use Rattle.dep_files.specs.Ahead.{AreFilesAhead};
ghost use Rattle.dep_row_maps.specs.Stored.{HasRow};
ghost use Rattle.dep_views.specs.Ahead.{AreRowsAhead};
ghost use Rattle.dep_views.specs.Shown.{MayFindRow, MayReadShown, ReadsRow, ReadsShown, object_of_read_set, object_row_read};

use crate::ahead::RowsAhead;
use crate::objects::{view_of, with_files};
use crate::segments::numbers_of;
use dep_answers::{FileId, ReadSet, Shown};
use dep_files::{FilesAhead, find_file, load_files, load_hashed_files};
use dep_objects::{DescribedObject, describe, find_object};
use dep_staging::{FoundUpload, load_upload};
use dep_tables::Statements;
use dep_types::{List, Metadata, ObjectRow, ObjectView, StoreFault};
use std::alloc::Global;

// The object of this row, with its files, which may have been read ahead.
fn show_listed<T: Statements>(
    tx: &mut T,
    alloc: Global,
    files: &mut FilesAhead,
    row: ObjectRow,
) -> Result<Shown, StoreFault>
    ensures does { ReadsRow read_set.Files T.lenders T.state tx.old tx.new result row
        (λ s. AreFilesAhead s files.old) }
    ensures files { (s : State) → AreFilesAhead s files.old → AreFilesAhead s files.new }
{
    let listed = load_files(tx, alloc, files, &row)?;
    Ok(Shown::Files(ObjectView {
        object: row,
        metadata: Metadata::new(alloc),
        files: listed,
        sha512s: List::empty(alloc),
    }))
}

// The object of this row, with its files and their SHA-512 values, which may have been read ahead.
fn show_hashed<T: Statements>(
    tx: &mut T,
    alloc: Global,
    files: &mut FilesAhead,
    row: ObjectRow,
) -> Result<Shown, StoreFault>
    ensures does { ReadsRow read_set.Payload T.lenders T.state tx.old tx.new result row
        (λ s. AreFilesAhead s files.old) }
    ensures files { (s : State) → AreFilesAhead s files.old → AreFilesAhead s files.new }
{
    let hashed = load_hashed_files(tx, alloc, files, &row)?;
    Ok(Shown::Files(ObjectView {
        object: row,
        metadata: Metadata::new(alloc),
        files: hashed.rows,
        sha512s: hashed.sha512s,
    }))
}

fn show_file<T: Statements>(tx: &mut T, id: FileId) -> Result<Shown, StoreFault>
    ensures does { ReadsShown T.lenders T.state tx.old tx.new result (read_set.File id) (λ _. ⊤) }
{
    match find_file(tx, id.object, id.file)? {
        Some(row) => Ok(Shown::File(row)),
        None => Ok(Shown::Nothing),
    }
}

fn show_upload<T: Statements>(tx: &mut T, alloc: Global, upload: u64) -> Result<Shown, StoreFault>
    ensures does { ReadsShown T.lenders T.state tx.old tx.new result
        (read_set.Upload upload) (λ _. ⊤) }
{
    match load_upload(tx, alloc, upload)? {
        FoundUpload::Live(staged) => Ok(Shown::Upload {
            upload: staged.row,
            received: numbers_of(alloc, staged.received.as_slice())?,
        }),
        FoundUpload::TimedOut => Ok(Shown::Nothing),
        FoundUpload::Unknown => Ok(Shown::Nothing),
    }
}

// What is told of the object of this row, of which texts and files may have been read ahead.
fn show_rest<T: Statements>(
    tx: &mut T,
    alloc: Global,
    rows: &mut RowsAhead,
    row: ObjectRow,
) -> Result<Shown, StoreFault>
    ensures does { ReadsRow read_set.Object T.lenders T.state tx.old tx.new result row
        (λ s. AreRowsAhead s rows.old) }
    ensures rows { (s : State) → AreRowsAhead s rows.old → AreRowsAhead s rows.new }
{
    if let Some(metadata) = rows.texts.take(&row) {
        let described = DescribedObject { row, metadata };
        let view = with_files(tx, alloc, &mut rows.files, described)?;
        return Ok(Shown::Object(view));
    }
    let view = view_of(tx, alloc, &mut rows.files, row)?;
    Ok(Shown::Object(view))
}

// The object of this row, with its metadata, which may have been read ahead.
fn show_texts<T: Statements>(
    tx: &mut T,
    alloc: Global,
    rows: &mut RowsAhead,
    row: ObjectRow,
) -> Result<Shown, StoreFault>
    ensures does { MayReadShown T.lenders T.state tx.old tx.new result
        (read_set.Metadata row.object) (λ s. HasRow s row × AreRowsAhead s rows.old) }
    ensures rows { (s : State) → AreRowsAhead s rows.old → AreRowsAhead s rows.new }
{
    if let Some(metadata) = rows.texts.take(&row) {
        return Ok(Shown::Metadata {
            object: row,
            metadata,
        });
    }
    let described = describe(tx, alloc, row)?;
    Ok(Shown::Metadata {
        object: described.row,
        metadata: described.metadata,
    })
}

// The number of the object that is shown, or of which a part is.
fn object_in(read_set: &ReadSet) -> Option<u64>
    ensures { result ≡ object_of_read_set read_set.now }
{
    match *read_set {
        ReadSet::Object(object)
        | ReadSet::Payload(object)
        | ReadSet::Files(object)
        | ReadSet::ObjectRow(object)
        | ReadSet::Metadata(object) => Some(object),
        ReadSet::Nothing | ReadSet::File(_) | ReadSet::Upload(_) => None,
    }
}

// The row of that object: the known one, which isn't read again, or the one that is found.
fn row_of<T: Statements>(
    tx: &mut T,
    read_set: &ReadSet,
    known: Option<ObjectRow>,
) -> Result<Option<ObjectRow>, StoreFault>
    ensures does { MayFindRow T.lenders T.state tx.old tx.new result read_set.now known }
{
    match (object_in(read_set), known) {
        (Some(object), Some(row)) if row.object == object => Ok(Some(row)),
        (Some(object), _) => find_object(tx, object),
        (None, _) => Ok(None),
    }
}

// What a reply shows of the object of this row, which is there.
fn show_object<T: Statements>(
    tx: &mut T,
    alloc: Global,
    rows: &mut RowsAhead,
    read_set: &ReadSet,
    row: ObjectRow,
) -> Result<Shown, StoreFault>
    ensures does { MayReadShown T.lenders T.state tx.old tx.new result read_set.now
        (λ s. (Some row ≡ object_row_read s read_set.now) × AreRowsAhead s rows.old) }
    ensures rows { (s : State) → AreRowsAhead s rows.old → AreRowsAhead s rows.new }
{
    match *read_set {
        ReadSet::Object(_) => show_rest(tx, alloc, rows, row),
        ReadSet::Payload(_) => show_hashed(tx, alloc, &mut rows.files, row),
        ReadSet::Files(_) => show_listed(tx, alloc, &mut rows.files, row),
        ReadSet::Metadata(_) => show_texts(tx, alloc, rows, row),
        _ => Ok(Shown::ObjectRow(row)),
    }
}

// What a reply shows where no object is there, or none is asked for.
fn show_other<T: Statements>(
    tx: &mut T,
    alloc: Global,
    read_set: &ReadSet,
) -> Result<Shown, StoreFault>
    ensures does { MayReadShown T.lenders T.state tx.old tx.new result read_set.now
        (λ s. None ≡ object_row_read s read_set.now) }
{
    match *read_set {
        ReadSet::File(id) => show_file(tx, id),
        ReadSet::Upload(upload) => show_upload(tx, alloc, upload),
        _ => Ok(Shown::Nothing),
    }
}

/// What a reply shows, read of the archive; nothing where nothing is there. Where the known row, which the archive has, is the
/// object's, it is not read again, nor are its texts and files that were read ahead: these are taken out. No content is read. A
/// number of 2^63 or more is a fault of the store.
pub fn load_shown<T: Statements>(
    tx: &mut T,
    alloc: Global,
    rows: &mut RowsAhead,
    read_set: &ReadSet,
    known: Option<ObjectRow>,
) -> Result<Shown, StoreFault>
    ensures does { MayReadShown T.lenders T.state tx.old tx.new result read_set.now
        (λ s. IfSome known (HasRow s) × AreRowsAhead s rows.old) }
    ensures rows { (s : State) → AreRowsAhead s rows.old → AreRowsAhead s rows.new }
{
    match row_of(tx, read_set, known)? {
        Some(row) => show_object(tx, alloc, rows, read_set, row),
        None => show_other(tx, alloc, read_set),
    }
}
