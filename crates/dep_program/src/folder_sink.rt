//! The folder as a sink of a bag.
ghost use Rattle.std.specs.Prelude.{◌≡◌, OnErr, OnOk};
ghost use Rattle.dep_types.specs.Writing.{HasRisen};

use crate::folder::Folder;
use dep_types::{BagSink, Outlet, SinkFailed, WriteFailed};
use std::io;

/// A bag goes into the folder, and its failures are counted.
#[derive(Drop)]
pub struct FolderSink<'a> {
    folder: Folder<'a>,
    failures: u64,
}

impl<'a> FolderSink<'a> {
    /// None of its calls has failed so far.
    pub fn new(folder: Folder<'a>) -> FolderSink<'a>
        ensures folder { result.folder ≡ folder.entry }
        ensures failures { result.failures ≡ 0 }
    {
        FolderSink {
            folder,
            failures: 0,
        }
    }

    /// Counts a call that failed.
    fn count(&mut self, done: io::Result<()>) -> Result<(), SinkFailed>
        ensures count { OnOk result (self.new.failures ≡ self.old.failures) }
        ensures cause { OnErr result (HasRisen self.old.failures self.new.failures) }
    {
        match done {
            Ok(()) => Ok(()),
            Err(_) => {
                self.failures = self.failures.saturating_add(1);
                Err(SinkFailed)
            }
        }
    }
}

impl Outlet for FolderSink<'_> {
    ghost failures = { λ s. s.failures };

    fn write(&mut self, bytes: &[u8]) -> Result<(), WriteFailed> {
        if bytes.is_empty() {
            return Ok(());
        }
        match self.folder.file.write_on(bytes) {
            Ok(()) => Ok(()),
            Err(_) => {
                self.failures = self.failures.saturating_add(1);
                Err(WriteFailed)
            }
        }
    }
}

impl BagSink for FolderSink<'_> {
    fn folder(&mut self, path: &str) -> Result<(), SinkFailed> {
        let made = self.folder.make_folder(path);
        self.count(made)
    }

    fn begin(&mut self, path: &str) -> Result<(), SinkFailed> {
        let begun = self.folder.begin_file(path);
        self.count(begun)
    }

    fn finish(&mut self) -> Result<(), SinkFailed> {
        let ended = self.folder.file.end();
        self.count(ended)
    }
}
