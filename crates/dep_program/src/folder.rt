//! A new folder of the file system, for an export.
ghost use Rattle.std.specs.Prelude.{◌≡◌, IfOk, OnOk, IsSome, None, string_bytes};
ghost use Rattle.dep_program.specs.Folders.{path_inside, without_folder};

use crate::outcome::Outcome;
use crate::progress::ProgressLine;
use std::alloc::AllocError;
use std::fs::File;
use std::io::{ErrorKind, Write};
use std::{fs, io};

/// Room for the path of each file of a bag: the number of a file and its name.
const ROOM: usize = 512;

/// A new folder of the file system, which is filled file by file.
#[derive(Drop)]
pub struct Folder<'a> {
    rt: &'a HostRuntime,
    path: &'a str,
    /// The path of the file or folder that was made last. Its room is taken at once.
    inside: String,
    pub(crate) file: LastFile<'a>,
}

/// The file of a folder that was begun last, until it is ended.
#[derive(Drop)]
pub(crate) struct LastFile<'a> {
    begun: Option<File>,
    progress: ProgressLine<'a>,
}

impl<'a> Folder<'a> {
    /// Makes the folder, which must not be there.
    pub fn new(rt: &'a HostRuntime, path: &'a str) -> io::Result<Folder<'a>>
        ensures path { IfOk result (λ folder. folder.path.now ≡ path.now) }
        ensures none_begun { IfOk result (λ folder. folder.file.begun ≡ None) }
    {
        let inside = String::with_capacity(rt.alloc(), path.len().saturating_add(ROOM))?;
        fs::create_dir(rt, path)?;
        Ok(Folder {
            rt,
            path,
            inside,
            file: LastFile {
                begun: None,
                progress: ProgressLine::new(rt),
            },
        })
    }

    /// Makes a folder in it, with those above.
    pub fn make_folder(&mut self, path: &str) -> io::Result<()>
        ensures made { OnOk result
            (string_bytes self.new.inside ≡ path_inside self.old.path.now path.now) }
        ensures path { self.new.path ≡ self.old.path }
        ensures file { self.new.file ≡ self.old.file }
    {
        put_path(&mut self.inside, self.path, path)?;
        fs::create_dir_all(self.rt, self.inside.as_str())
    }

    /// Begins a file in it, which must not be there, and makes the folders that its path names.
    pub fn begin_file(&mut self, path: &str) -> io::Result<()>
        ensures made { OnOk result
            (string_bytes self.new.inside ≡ path_inside self.old.path.now path.now) }
        ensures path { self.new.path ≡ self.old.path }
        ensures begun { OnOk result (IsSome self.new.file.begun) }
    {
        if let Some((above, _)) = path.rsplit_once('/') {
            self.make_folder(above)?;
        }
        put_path(&mut self.inside, self.path, path)?;
        let file = File::create_new(self.rt, self.inside.as_str())?;
        drop(self.file.begun.replace(file));
        Ok(())
    }
}

impl LastFile<'_> {
    /// Writes on in the file that was begun last. There has to be one.
    pub fn write_on(&mut self, bytes: &[u8]) -> io::Result<()>
        ensures begun { OnOk result (IsSome self.old.begun) }
    {
        match &mut self.begun {
            Some(file) => file.write_all(bytes)?,
            None => return Err(ErrorKind::NotFound.into()),
        }
        self.progress.advance(bytes.len() as u64);
        Ok(())
    }

    /// Ends the file that was begun last, once the disk has it: so a write that fails late is seen.
    pub fn end(&mut self) -> io::Result<()>
        ensures ended { self.new.begun ≡ None }
    {
        match self.begun.take() {
            Some(file) => file.sync_all(),
            None => Ok(()),
        }
    }
}

// Puts the path of a file or a folder in this folder into the room for it.
fn put_path(inside: &mut String, folder: &str, path: &str) -> Result<(), AllocError>
    ensures { OnOk result (string_bytes inside.new ≡ path_inside folder.now path.now) }
{
    inside.clear();
    inside.push_str(folder)?;
    inside.push_str("/")?;
    inside.push_str(path)
}

/// Returns the outcome of an export whose folder can't be made: `StoreFault` for lack of memory, else
/// `TransferFault`.
pub fn without_folder(kind: ErrorKind) -> Outcome
    ensures { result ≡ without_folder kind }
{
    match kind {
        ErrorKind::OutOfMemory => Outcome::StoreFault,
        _ => Outcome::TransferFault,
    }
}
