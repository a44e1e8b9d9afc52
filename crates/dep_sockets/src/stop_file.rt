//! The file by which a server is told to stop.
ghost use Rattle.std.specs.Prelude.{◌≡◌, ◌≤◌, ◌+◌, ◌^◌, ◌-◌, min, IsNone, IsSome, true, false};

use std::fs::{self, Files};

/// A file by which a server is told to stop, if it has one: once a second it is looked whether it is there,
/// until it was.
#[derive(Drop)]
pub(crate) struct StopFile<'a, R> {
    files: &'a R,
    /// There is none once it was told.
    path: Option<&'a str>,
    /// The second from which on it is looked for again.
    next: u64,
}

impl<'a, R: Files> StopFile<'a, R> {
    /// The file of this path, if there is one, which is looked for at once.
    pub fn new(files: &'a R, path: Option<&'a str>) -> StopFile<'a, R>
        ensures at_once { result.next ≡ 0 }
    {
        StopFile {
            files,
            path,
            next: 0,
        }
    }

    /// Whether it is there at a second, where it is looked for. A file that can't be looked for isn't there.
    pub fn reports(&mut self, second: u64) -> bool
        ensures one { result ≡ true → IsSome self.old.path }
        ensures once { result ≡ true → IsNone self.new.path }
        ensures kept { result ≡ false → self.new.path ≡ self.old.path }
        ensures later { result ≡ true → self.old.next ≤ second }
        ensures seldom { self.old.next ≤ second → IsSome self.old.path
            → self.new.next ≡ min (second + 1) (2 ^ 64 - 1) }
    {
        let Some(path) = self.path else {
            return false;
        };
        if second < self.next {
            return false;
        }
        self.next = second.saturating_add(1);
        let is_there = fs::exists(self.files, path).unwrap_or(false);
        if is_there {
            self.path = None;
        }
        is_there
    }
}
