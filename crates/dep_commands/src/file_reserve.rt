//! A reserve in a file.
ghost use Rattle.std.specs.Prelude.{◌≡◌, false};

use crate::reserve::Reserve;
use std::alloc::{AllocError, Global};
use std::fs::{self, File, Files, OpenFile};
use std::io::{self, Write};
use std::os::unix::fs::OpenOptionsExt;

/// The owner may read and write the file, and no one else.
const OWNER_ALONE: u32 = 0o600;

/// How many bytes are written at once.
const PIECE: usize = 65_536;

/// How many numbers of eight bytes a piece has.
const PIECE_WORDS: usize = 8_192;

/// So many bytes have to be free besides, 4 MiB, or the next clocks might need it again: a store's log is copied once it has
/// that many.
const MARGIN: u64 = 4_194_304;

/// A reserve in a file, which is written whole and not only made long, so that the file system has the room. A file system that
/// compresses finds nothing in it to save.
#[derive(Drop)]
pub struct FileReserve<'a, R> {
    alloc: Global,
    files: &'a R,
    path: &'a str,
    bytes: u64,
    is_standing: bool,
}

impl<'a, R: Files> FileReserve<'a, R> {
    /// A reserve of so many bytes, which does not stand yet, in the file of this path, whatever that has.
    pub fn new(alloc: Global, files: &'a R, path: &'a str, bytes: u64) -> FileReserve<'a, R>
        ensures { result.is_standing ≡ false }
    {
        FileReserve {
            alloc,
            files,
            path,
            bytes,
            is_standing: false,
        }
    }

    // Writes it and the margin, which is cut off then. It is not synchronized: the system has counted the room.
    fn write(&self) -> io::Result<()> {
        let piece = noise(self.alloc)?;
        let mut file = File::options()
            .write(true)
            .create(true)
            .truncate(true)
            .mode(OWNER_ALONE)
            .open(self.files, self.path)?;
        let pieces = self.bytes.saturating_add(MARGIN).div_ceil(PIECE as u64);
        for _ in 0..pieces {
            file.write_all(piece.as_slice())?;
        }
        file.set_len(self.bytes)
    }

    // Where the file can't be removed, nothing else can be done: the room may be short then.
    fn remove(&self) {
        let _removed = fs::remove_file(self.files, self.path);
    }
}

/// A piece of bytes that have no order, by a linear congruential generator.
fn noise(alloc: Global) -> Result<Vec<u8>, AllocError> {
    let mut bytes = Vec::with_capacity(alloc, PIECE)?;
    let mut word: u64 = 1;
    for _ in 0..PIECE_WORDS {
        word = word
            .wrapping_mul(6_364_136_223_846_793_005)
            .wrapping_add(1_442_695_040_888_963_407);
        bytes.extend_from_slice(&word.to_be_bytes())?;
    }
    Ok(bytes)
}

impl<R: Files> Reserve for FileReserve<'_, R> {
    ghost is_standing = { λ its. its.is_standing };

    fn is_intact(&self) -> bool {
        self.is_standing
    }

    fn give_up(&mut self) {
        self.is_standing = false;
        self.remove();
    }

    // A part of it, which would hold room that clocks may need, is removed.
    fn restore(&mut self) {
        self.is_standing = self.write().is_ok();
        if !self.is_standing {
            self.remove();
        }
    }
}
