//! New files, each under the next number, with their contents.

ghost use Rattle.std.specs.Prelude.{◌≡◌, ⊤, ℕ, slice_get, Some, None, IfOk};
ghost use Rattle.dep_types.specs.State.{State, Upload};
ghost use Rattle.dep_types.specs.Rows.{file_row, upload_row};
ghost use Rattle.dep_types.specs.Uploads.{assembled};
ghost use Rattle.dep_fixity.specs.Fixity.{digests_of};
ghost use Rattle.dep_decisions.specs.Effects.{bytes_from, file_from, is_reference};
ghost use Rattle.dep_decisions.specs.declared.decision.Decision.TheVariants.{SetFile, SetFiles};
ghost use Rattle.dep_decisions.specs.declared.decision.Deposit.TheVariants.{Files};
ghost use Rattle.dep_requests.specs.Changed.{IsExtent, new_row};
ghost use Rattle.dep_requests.specs.Clauses.{CarriesOut, DepositsFile, PutsIn};
ghost use Rattle.dep_requests.specs.Reported.{ReportsNewFile, ReportsSource, whole_view};

use crate::change::{Change, NumberedFiles, touched_object};
use crate::objects::files_changed;
use dep_decisions::{ContentSource, NewFile};
use dep_files::{delete_file, delete_files, put_file};
use dep_fixity::Digests;
use dep_objects::put_object;
use dep_operations::{UploadState, UploadView, View};
use dep_staging::assemble;
use dep_tables::Statements;
use dep_types::{FileRow, StoreFault, Text, UploadRow};
use std::alloc::{AllocError, Global};

/// The numbers of a file and of its object.
#[derive(Clone, Copy)]
pub(crate) struct FileNumbers {
    pub(crate) object: u64,
    pub(crate) file: u64,
}

/// A new file, with its numbers.
#[derive(Clone, Copy)]
struct NumberedFile<'a> {
    change: &'a Change<'a>,
    numbers: FileNumbers,
    new: &'a NewFile,
}

/// How many bytes a content has, and their digests.
#[derive(Clone, Copy)]
struct Extent {
    size: u64,
    digests: Digests,
}

// A copy of the name of the person on whose behalf a file is deposited, if it is on anyone's.
fn copied_behalf(alloc: Global, behalf: &Option<Text>) -> Result<Option<Text>, AllocError>
    ensures { IfOk result (λ copied. copied ≡ behalf.now) }
{
    match behalf {
        Some(name) => Ok(Some(Text::copied(alloc, name.as_str())?)),
        None => Ok(None),
    }
}

fn is_reference(source: ContentSource) -> bool
    ensures { result ≡ is_reference source }
{
    match source {
        ContentSource::Posted(_) => false,
        ContentSource::Assembled(_) => true,
    }
}

// The row of a new file that has such an extent.
fn new_row(
    change: &Change<'_>,
    numbers: FileNumbers,
    new: &NewFile,
    extent: Extent,
) -> Result<FileRow, AllocError>
    ensures { IfOk result (λ row. row ≡ new_row change.now numbers new.now extent) }
{
    Ok(FileRow {
        file: numbers.file,
        object: numbers.object,
        name: Text::copied(change.alloc, new.name.as_str())?,
        media: Text::copied(change.alloc, new.media.as_str())?,
        size: extent.size,
        tag: change.view.next.change,
        deposited: change.view.clock,
        behalf: copied_behalf(change.alloc, &new.behalf)?,
        by_reference: is_reference(new.source),
        sha256: extent.digests.sha256,
    })
}

/// An upload that is whole, with the digests of its bytes.
#[derive(Clone, Copy)]
struct WholeUpload {
    row: UploadRow,
    digests: Digests,
}

// The upload that is seen at this place. That it isn't there or isn't whole is a fault of the store, as the rules let
// no such request through.
fn whole_upload(view: &View, index: usize) -> Result<WholeUpload, StoreFault>
    ensures reported { IfOk result (λ whole. (u : ℕ) (it : Upload)
        → slice_get view.now.uploads index ≡ Some (whole_view u it)
        → (whole.row ≡ upload_row u it) × (whole.digests ≡ digests_of (assembled it))) }
{
    let views = view.uploads.as_slice();
    if index >= views.len() {
        return Err(StoreFault::Store);
    }
    let UploadState::Live(live) = &views[index].state else {
        return Err(StoreFault::Store);
    };
    let digests = live.digests.ok_or(StoreFault::Store)?;
    Ok(WholeUpload {
        row: live.row,
        digests,
    })
}

// How many bytes a new file has, and their digests.
fn extent_of(change: &Change<'_>, source: ContentSource, index: usize) -> Result<Extent, StoreFault>
    ensures { (s : State) → ReportsSource change.now s index source
        → IfOk result (λ extent. IsExtent extent (bytes_from s change.now.content.now source)) }
{
    match source {
        ContentSource::Posted(digests) => Ok(Extent {
            size: change.content.as_slice().len() as u64,
            digests,
        }),
        ContentSource::Assembled(_) => {
            let upload = whole_upload(change.view, index)?;
            Ok(Extent {
                size: upload.row.size,
                digests: upload.digests,
            })
        }
    }
}

/// The row of a new file, whose bytes come from its source.
pub(crate) fn row_of(
    change: &Change<'_>,
    numbers: FileNumbers,
    new: &NewFile,
    index: usize,
) -> Result<FileRow, StoreFault>
    ensures reported { (s : State) → ReportsNewFile change.now s index new.now.source
        → IfOk result (λ row. row
        ≡ file_row numbers.object numbers.file (file_from s change.now.content.now new.now)) }
{
    let extent = extent_of(change, new.source, index)?;
    Ok(new_row(change, numbers, new, extent)?)
}

// Makes the row of one new file, and takes its bytes by its source: of the request, or of an upload, which goes.
fn put_new_file<T: Statements>(
    tx: &mut T,
    file: &NumberedFile<'_>,
    index: usize,
) -> Result<(), StoreFault>
    ensures map { DepositsFile T.lenders T.state tx.old tx.new result file.now.change.now
        file.now.numbers file.now.new.now index file.now.new.now.source }
{
    let row = row_of(file.change, file.numbers, file.new, index)?;
    match file.new.source {
        ContentSource::Posted(digests) => {
            let put = put_file(tx, &row, &digests.sha512, file.change.content);
            drop(row);
            put
        }
        ContentSource::Assembled(_) => {
            let upload = whole_upload(file.change.view, index)?;
            let put = assemble(tx, &upload.row, &row, &upload.digests.sha512);
            drop(row);
            put
        }
    }
}

/// Numbers new files in their order, and puts one after another in an object that is there.
pub(crate) fn put_new_files<T: Statements>(
    tx: &mut T,
    numbered: &NumberedFiles<'_>,
    object: u64,
) -> Result<(), StoreFault>
    ensures map { PutsIn T.lenders T.state tx.old tx.new result numbered.now.change.now object
        (Files numbered.now.files.now) }
{
    let change = numbered.change;
    let files = numbered.files;
    'files: for (index, new) in files.iter().enumerate() {
        let numbers = FileNumbers {
            object,
            file: change.view.next.file + index as u64,
        };
        let file = NumberedFile {
            change,
            numbers,
            new,
        };
        put_new_file(tx, &file, index)?;
    }
    Ok(())
}

/// The object has these files alone.
pub(crate) fn set_files<T: Statements>(
    tx: &mut T,
    numbered: &NumberedFiles<'_>,
) -> Result<(), StoreFault>
    ensures map { (n : ℕ) → CarriesOut T.lenders T.state tx.old tx.new result numbered.now.change.now
        (SetFiles n numbered.now.files.now) }
{
    let change = numbered.change;
    let row = touched_object(change.view)?;
    delete_files(tx, change.alloc, row.object)?;
    put_object(tx, &files_changed(change.view, row))?;
    put_new_files(tx, numbered, row.object)
}

/// The file of the object becomes the content of the request, under its number.
pub(crate) fn set_file<T: Statements>(
    tx: &mut T,
    change: &Change<'_>,
    file: u64,
    new: &NewFile,
) -> Result<(), StoreFault>
    ensures map { (n : ℕ) → CarriesOut T.lenders T.state tx.old tx.new result change.now
        (SetFile n file new.now) }
{
    let row = touched_object(change.view)?;
    put_object(tx, &files_changed(change.view, row))?;
    delete_file(tx, file)?;
    let numbers = FileNumbers {
        object: row.object,
        file,
    };
    let numbered = NumberedFile {
        change,
        numbers,
        new,
    };
    put_new_file(tx, &numbered, 0)
}
