//! What is done ahead of requests.

ghost use Rattle.dep_row_maps.specs.Clauses.{MayReadOver};
ghost use Rattle.dep_files.specs.Ahead.{AreFilesAhead};
ghost use Rattle.dep_types.specs.State.{State};
ghost use Rattle.dep_types.specs.Sound.{IsSound};
ghost use Rattle.dep_views.specs.Ahead.{AddsTo, AreRowsAhead, IsAhead};

use dep_answers::ReadSet;
use dep_docs_in::ReferencesAhead;
use dep_files::{FilesAhead, read_files_ahead};
use dep_objects::{TextsAhead, find_object, read_ahead};
use dep_staging::RunningHashes;
use dep_tables::Statements;
use dep_types::{ObjectRow, StoreFault};
use std::alloc::Global;

/// The rows of objects that were read before the requests that show them are answered.
#[derive(Drop)]
pub struct RowsAhead {
    /// The texts of an object's metadata.
    pub texts: TextsAhead,
    /// The files of an object.
    pub files: FilesAhead,
}

impl RowsAhead {
    /// Nothing was read. It takes no memory.
    pub fn new() -> RowsAhead
        ensures { (s : State) → AreRowsAhead s result }
    {
        RowsAhead {
            texts: TextsAhead::new(),
            files: FilesAhead::new(),
        }
    }

    /// Forgets what was read.
    pub fn forget(&mut self)
        ensures { (s : State) → AreRowsAhead s self.new }
    {
        self.texts.forget();
        self.files.forget();
    }

    /// Takes out the files that were read of an object before it was added to, which are the first of those that it has now, where
    /// both rows are known.
    pub fn follow(
        &mut self,
        alloc: Global,
        before: Option<ObjectRow>,
        after: Option<ObjectRow>,
    ) -> RowsAhead
        ensures left { (s : State) → AreRowsAhead s self.old → AreRowsAhead s self.new }
        ensures followed { (s t : State) → IsSound t → AreRowsAhead s self.old
            → AddsTo s t before after → AreRowsAhead t result }
    {
        match (before, after) {
            (Some(before), Some(after)) => RowsAhead {
                texts: TextsAhead::new(),
                files: self.files.follow(alloc, &before, &after),
            },
            _ => RowsAhead::new(),
        }
    }
}

// Reads files of an object, if it is there.
fn read_listed<T: Statements>(
    tx: &mut T,
    alloc: Global,
    files: &mut FilesAhead,
    object: u64,
    with_sha512s: bool,
) -> Result<bool, StoreFault>
    ensures does { MayReadOver T.lenders T.state tx.old tx.new result
        (λ s. IsSound s → AreFilesAhead s files.old → AreFilesAhead s files.new) }
{
    match find_object(tx, object)? {
        Some(row) => read_files_ahead(tx, alloc, files, &row, with_sha512s),
        None => Ok(false),
    }
}

// Reads texts of an object, if it is there, and once all are read its files with their SHA-512 values.
fn read_whole<T: Statements>(
    tx: &mut T,
    alloc: Global,
    rows: &mut RowsAhead,
    object: u64,
) -> Result<bool, StoreFault>
    ensures does { MayReadOver T.lenders T.state tx.old tx.new result
        (λ s. IsSound s → AreRowsAhead s rows.old → AreRowsAhead s rows.new) }
{
    let are_texts_left = read_ahead(tx, alloc, &mut rows.texts, object)?;
    if are_texts_left {
        return Ok(true);
    }
    read_listed(tx, alloc, &mut rows.files, object, true)
}

/// Reads some of the texts or files of an object, if it is there, which a reply shows that needs all of them
/// ([`load_shown`](crate::load_shown)). It returns whether more may be left: also where those of another object are read, whose
/// request comes first. What was read is lost where it fails. A number of 2^63 or more is a fault of the store.
pub fn read_rows_ahead<T: Statements>(
    tx: &mut T,
    alloc: Global,
    rows: &mut RowsAhead,
    read_set: &ReadSet,
) -> Result<bool, StoreFault>
    ensures does { MayReadOver T.lenders T.state tx.old tx.new result
        (λ s. IsSound s → AreRowsAhead s rows.old → AreRowsAhead s rows.new) }
{
    match *read_set {
        ReadSet::Metadata(object) => read_ahead(tx, alloc, &mut rows.texts, object),
        ReadSet::Files(object) => read_listed(tx, alloc, &mut rows.files, object, false),
        ReadSet::Payload(object) => read_listed(tx, alloc, &mut rows.files, object, true),
        ReadSet::Object(object) => read_whole(tx, alloc, rows, object),
        _ => Ok(false),
    }
}

/// What was done of requests before they are answered. It is lost with the process.
#[derive(Drop)]
pub struct WorkAhead {
    /// How far uploads were hashed.
    pub hashes: RunningHashes,
    /// The rows of objects that were read.
    pub rows: RowsAhead,
    /// The references of a content that were read.
    pub references: ReferencesAhead,
}

impl WorkAhead {
    /// Nothing was done. It takes no memory.
    pub fn new(alloc: Global) -> WorkAhead
        ensures { (s : State) → IsAhead s result }
    {
        WorkAhead {
            hashes: RunningHashes::new(alloc),
            rows: RowsAhead::new(),
            references: ReferencesAhead::new(),
        }
    }

    /// Forgets what was read for requests, as none waits for it. What was hashed stays known.
    pub fn forget(&mut self)
        ensures { (s : State) → IsAhead s self.old → IsAhead s self.new }
    {
        self.rows.forget();
        self.references.forget();
    }
}
