//! The files of an object that are read before a request lists them, some at a time.

ghost use Rattle.std.specs.Prelude.{◌≡◌, ℕ, ◌++◌, length, take, IfOk, IfSome};
ghost use Rattle.dep_types.specs.Maps.{Numbered};
ghost use Rattle.dep_types.specs.State.{State, File};
ghost use Rattle.dep_types.specs.Sound.{IsSound};
ghost use Rattle.dep_files.specs.Ahead.{AddsFiles, AreFilesAhead, AreFilesSoFar, ReadsFilesOn, number_behind};
ghost use Rattle.dep_types.specs.Rows.{sha512s_of};
ghost use Rattle.dep_row_maps.specs.Clauses.{Finds, MayReadOver, ReadsOver};
ghost use Rattle.dep_row_maps.specs.ReadLaws.{file_rows};
ghost use Rattle.dep_row_maps.specs.Stored.{HasRow};
ghost use Rattle.dep_row_maps.specs.TablesAre.{files_at};

use crate::held::Held;
use crate::loading::read_sha512s;
use dep_tables::{LIMIT, PAGE_SIZE, Statements, files_of, files_page};
use dep_types::{FileRow, List, ObjectRow, StoreFault};
use std::alloc::{AllocError, Global};

/// The files of an object, as far as they were read: the first of them.
#[derive(Drop)]
pub(crate) struct ReadFiles {
    rows: Vec<FileRow>,
    /// The SHA-512 values of the first of these.
    sha512s: Vec<[u8; 64]>,
    /// Whether all rows were read, so that no query is asked for more of them.
    has_all: bool,
}

/// The files of an object that were read ahead of a request that lists them. They are lost with the process.
#[derive(Drop)]
pub struct FilesAhead {
    held: Held<ReadFiles>,
}

/// The files of an object, by ascending number, with the SHA-512 value of each.
#[derive(Drop)]
pub struct HashedFiles {
    pub rows: List<FileRow>,
    pub sha512s: List<[u8; 64]>,
}

impl FilesAhead {
    /// No files of any object. It takes no memory.
    pub fn new() -> FilesAhead
        ensures { (s : State) → AreFilesAhead s result }
    {
        FilesAhead {
            held: Held::nothing(),
        }
    }

    /// Forgets what was read, as no request waits for it.
    pub fn forget(&mut self)
        ensures { (s : State) → AreFilesAhead s self.new }
    {
        self.held.forget();
    }

    /// Takes out what was read of an object that had the first row and has the second one now, where files were only added to
    /// it: for [`load_files`], which reads the rest then.
    pub fn follow(&mut self, alloc: Global, before: &ObjectRow, after: &ObjectRow) -> FilesAhead
        ensures left { (s : State) → AreFilesAhead s self.old → AreFilesAhead s self.new }
        ensures followed { (s t : State) → IsSound t → AreFilesAhead s self.old
            → HasRow s before.now → HasRow t after.now → AddsFiles s t before.now.object
            → AreFilesAhead t result }
    {
        if before.object != after.object {
            return FilesAhead::new();
        }
        let read = self.take(alloc, before);
        let mut held = Held::nothing();
        let files = ReadFiles {
            rows: read.rows,
            sha512s: read.sha512s,
            has_all: false,
        };
        held.put(after, files);
        FilesAhead { held }
    }

    // Takes out what was read of the object of this row, which may be nothing.
    fn take(&mut self, alloc: Global, row: &ObjectRow) -> ReadFiles
        ensures left { (s : State) → AreFilesAhead s self.old → AreFilesAhead s self.new }
        ensures taken { (s : State) → HasRow s row.now → AreFilesAhead s self.old
            → AreFilesSoFar row.now.object (files_at s.objects row.now.object) result }
    {
        match self.held.take(row) {
            Some(read) => read,
            None => ReadFiles::none(alloc),
        }
    }

    // The same, to read on. It is `None` where the request is passed over.
    fn take_on(&mut self, alloc: Global, row: &ObjectRow) -> Option<ReadFiles>
        ensures left { (s : State) → AreFilesAhead s self.old → AreFilesAhead s self.new }
        ensures taken { IfSome result (λ read. (s : State) → HasRow s row.now → AreFilesAhead s self.old
            → AreFilesSoFar row.now.object (files_at s.objects row.now.object) read) }
    {
        if self.held.passes_over(row) {
            return None;
        }
        Some(self.take(alloc, row))
    }
}

impl ReadFiles {
    // Nothing is read yet.
    fn none(alloc: Global) -> ReadFiles
        ensures { (n : ℕ) (files : Numbered File) → AreFilesSoFar n files result }
    {
        ReadFiles {
            rows: Vec::new(alloc),
            sha512s: Vec::new(alloc),
            has_all: false,
        }
    }

    // Whether something is left to be read.
    fn lacks(&self, with_sha512s: bool) -> bool {
        !self.has_all || (with_sha512s && self.sha512s.len() < self.rows.len())
    }
}

// The number from which the files have to be read that follow these.
fn key_behind(rows: &[FileRow]) -> Result<u64, StoreFault>
    ensures { IfOk result (λ from. from ≡ number_behind rows.now) }
{
    let Some(row) = rows.last() else {
        return Ok(0);
    };
    if row.file >= LIMIT {
        return Err(StoreFault::Store);
    }
    Ok(row.file + 1)
}

// These rows, and behind them those. Where the first are none nothing is moved.
fn joined(first: Vec<FileRow>, more: Vec<FileRow>) -> Result<Vec<FileRow>, AllocError>
    ensures { IfOk result (λ all. all.items ≡ first.items ++ more.items) }
{
    if first.is_empty() {
        return Ok(more);
    }
    let mut all = first;
    let mut more = more;
    all.append(&mut more)?;
    Ok(all)
}

// Reads the next rows of an object's files.
fn with_page<T: Statements>(
    tx: &mut T,
    alloc: Global,
    object: u64,
    read: ReadFiles,
) -> Result<ReadFiles, StoreFault>
    ensures does { ReadsOver T.lenders T.state tx.old tx.new result
        (λ s. ReadsFilesOn object (files_at s.objects object) read result) }
{
    let from = key_behind(read.rows.as_slice())?;
    let page = files_page(tx, alloc, object, from)?;
    let has_all = page.len() < PAGE_SIZE;
    let rows = joined(read.rows, page)?;
    Ok(ReadFiles {
        rows,
        sha512s: read.sha512s,
        has_all,
    })
}

// Reads the next SHA-512 values of an object's files.
fn with_values<T: Statements>(tx: &mut T, read: ReadFiles) -> Result<ReadFiles, StoreFault>
    ensures does { MayReadOver T.lenders T.state tx.old tx.new result
        (λ s. (n : ℕ) → ReadsFilesOn n (files_at s.objects n) read result) }
{
    let first = read.sha512s;
    let end = read.rows.len().min(first.len() + PAGE_SIZE);
    let sha512s = read_sha512s(tx, read.rows.as_slice(), first, end)?;
    Ok(ReadFiles {
        rows: read.rows,
        sha512s,
        has_all: read.has_all,
    })
}

// Reads more of an object's files: rows while some are left, and then SHA-512 values where these are wanted.
fn read_on<T: Statements>(
    tx: &mut T,
    alloc: Global,
    object: u64,
    read: ReadFiles,
    with_sha512s: bool,
) -> Result<ReadFiles, StoreFault>
    ensures does { MayReadOver T.lenders T.state tx.old tx.new result
        (λ s. ReadsFilesOn object (files_at s.objects object) read result) }
{
    if !read.has_all {
        return with_page(tx, alloc, object, read);
    }
    if with_sha512s {
        return with_values(tx, read);
    }
    Ok(read)
}

/// Reads files of the object of this row, which is there: at most [`PAGE_SIZE`] rows, or once all rows were read and
/// SHA-512 values are wanted, so many of these. A request that lists all of them takes them out then ([`load_files`],
/// [`load_hashed_files`]). It returns whether more may be left: also where those of another object are read, whose request
/// comes first. What was read is lost where it fails. A number of 2^63 or more is a fault of the store.
pub fn read_files_ahead<T: Statements>(
    tx: &mut T,
    alloc: Global,
    ahead: &mut FilesAhead,
    row: &ObjectRow,
    with_sha512s: bool,
) -> Result<bool, StoreFault>
    ensures does { MayReadOver T.lenders T.state tx.old tx.new result
        (λ s. IsSound s → HasRow s row.now → AreFilesAhead s ahead.old → AreFilesAhead s ahead.new) }
{
    let Some(read) = ahead.take_on(alloc, row) else {
        return Ok(true);
    };
    let read = read_on(tx, alloc, row.object, read, with_sha512s)?;
    let is_left = read.lacks(with_sha512s);
    ahead.held.put(row, read);
    Ok(is_left)
}

// All files of an object, of which these are the first.
fn with_rest<T: Statements>(
    tx: &mut T,
    alloc: Global,
    object: u64,
    rows: Vec<FileRow>,
) -> Result<Vec<FileRow>, StoreFault>
    ensures does { ReadsOver T.lenders T.state tx.old tx.new result
        (λ s. rows.items ≡ take (length rows.items) (file_rows object (files_at s.objects object))
        → IfOk result (λ all. all.items ≡ file_rows object (files_at s.objects object))) }
{
    let from = key_behind(rows.as_slice())?;
    let rest = files_of(tx, alloc, object, from)?;
    Ok(joined(rows, rest)?)
}

/// The files of the object of this row, which is there, by ascending number. Those that were read ahead are taken out; the
/// rest is read. A number of 2^63 or more is a fault of the store.
pub fn load_files<T: Statements>(
    tx: &mut T,
    alloc: Global,
    ahead: &mut FilesAhead,
    row: &ObjectRow,
) -> Result<List<FileRow>, StoreFault>
    ensures does { ReadsOver T.lenders T.state tx.old tx.new result
        (λ s. HasRow s row.now → AreFilesAhead s ahead.old → IfOk result (λ found.
        found ≡ file_rows row.now.object (files_at s.objects row.now.object))) }
    ensures left { (s : State) → AreFilesAhead s ahead.old → AreFilesAhead s ahead.new }
{
    let read = ahead.take(alloc, row);
    let rows = with_rest(tx, alloc, row.object, read.rows)?;
    Ok(List::from_vec(rows))
}

/// The same with the SHA-512 value of each. It is a fault of the store where one has none.
pub fn load_hashed_files<T: Statements>(
    tx: &mut T,
    alloc: Global,
    ahead: &mut FilesAhead,
    row: &ObjectRow,
) -> Result<HashedFiles, StoreFault>
    ensures does { Finds T.lenders T.state tx.old tx.new result
        (λ s. HasRow s row.now → AreFilesAhead s ahead.old → IfOk result (λ found.
        (found.rows ≡ file_rows row.now.object (files_at s.objects row.now.object))
        × (found.sha512s ≡ sha512s_of (files_at s.objects row.now.object)))) }
    ensures left { (s : State) → AreFilesAhead s ahead.old → AreFilesAhead s ahead.new }
{
    let read = ahead.take(alloc, row);
    let first = read.sha512s;
    let rows = with_rest(tx, alloc, row.object, read.rows)?;
    let end = rows.len();
    let sha512s = read_sha512s(tx, rows.as_slice(), first, end)?;
    Ok(HashedFiles {
        rows: List::from_vec(rows),
        sha512s: List::from_vec(sha512s),
    })
}
