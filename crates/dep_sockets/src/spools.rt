//! Where spools are made, and how many bytes all of them hold.
ghost use Rattle.std.specs.Prelude.{◌≡◌};
ghost use Rattle.dep_sockets.specs.Totals.{total_with};

use std::alloc::Global;
use std::cell::Cell;
use std::fs::{self, File, Files};
use std::io;
use std::io::ErrorKind;
use std::os::unix::fs::OpenOptionsExt;

/// The owner may read and write the file, and no one else.
const OWNER_ALONE: u32 = 0o600;

/// How many names are tried for a file, where others have them.
const MOST_NAMES: u32 = 64;

/// A folder in which spools are made, and the bytes that all of them may hold together.
#[derive(Drop)]
pub struct Spools<'a, R> {
    alloc: Global,
    files: &'a R,
    folder: &'a str,
    /// The number of the process, which is part of the names.
    process: u32,
    /// How many bytes all files may hold.
    most: u64,
    /// How many they hold.
    held: Cell<u64>,
    /// The number of the next name.
    next: Cell<u64>,
}

impl<'a, R: Files> Spools<'a, R> {
    /// Spools in the folder, of which all hold so many bytes at most.
    pub fn new(
        alloc: Global,
        files: &'a R,
        folder: &'a str,
        process: u32,
        most: u64,
    ) -> Spools<'a, R>
        ensures folder { result.folder.now ≡ folder.now }
        ensures most { result.most ≡ most }
    {
        Spools {
            alloc,
            files,
            folder,
            process,
            most,
            held: Cell::new(0),
            next: Cell::new(0),
        }
    }

    /// A file that has lost its name, so that it is gone with the process.
    pub(crate) fn open(&self) -> io::Result<R::File> {
        for _ in 0..MOST_NAMES {
            match self.open_next() {
                Err(error) if error.kind() == ErrorKind::AlreadyExists => {}
                opened => return opened,
            }
        }
        Err(ErrorKind::AlreadyExists.into())
    }

    // Under the next name.
    fn open_next(&self) -> io::Result<R::File> {
        let folder = self.folder;
        let process = self.process;
        let number = self.next.get();
        self.next.set(number.wrapping_add(1));
        let path = format!(in self.alloc; "{folder}/swordd-spool-{process}-{number}")?;
        let file = File::options()
            .read(true)
            .write(true)
            .create_new(true)
            .mode(OWNER_ALONE)
            .open(self.files, path.as_str())?;
        fs::remove_file(self.files, path.as_str())?;
        Ok(file)
    }

    /// Counts so many bytes that a spool is to hold. It returns whether there is room for them; where there
    /// is none, they aren't counted.
    pub(crate) fn charge(&self, count: u64) -> bool {
        match total_with(self.held.get(), count, self.most) {
            Some(held) => {
                self.held.set(held);
                true
            }
            None => false,
        }
    }

    /// Counts so many bytes as given back.
    pub(crate) fn give_back(&self, count: u64) {
        self.held.set(self.held.get().saturating_sub(count));
    }
}

/// The total with so many bytes more, if that isn't above the most.
fn total_with(held: u64, count: u64, most: u64) -> Option<u64>
    ensures { result ≡ total_with held count most }
{
    match held.checked_add(count) {
        Some(total) if total <= most => Some(total),
        _ => None,
    }
}
