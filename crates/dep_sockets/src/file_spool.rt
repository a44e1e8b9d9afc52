//! A spool in a file without a name.
ghost use Rattle.std.specs.Prelude.{◌≡◌, ◌≤◌, ◌<◌, ◌+◌, ◌-◌, OnOk, length, vec_len, true, false};
ghost use Rattle.dep_sockets.specs.Totals.{HoldsTheSame};

use crate::spools::Spools;
use dep_outbox::{Spool, SpoolFailed};
use std::fs::Files;
use std::io::{Read, Seek, SeekFrom, Write};

/// How many bytes are taken out of a spool at once at most.
const MOST_PULLED: u64 = 65_536;

/// A spool in a file that is made once it is needed, loses its name at once, and is gone with the spool.
pub struct FileSpool<'a, R: Files> {
    spools: &'a Spools<'a, R>,
    file: Option<R::File>,
    /// The bytes that it holds stand between these places of the file.
    begin: u64,
    end: u64,
    /// How often it failed, up to 2^64 - 1. Clauses alone read it.
    failures: u64,
    ghost within: { begin ≤ end },
}

impl<'a, R: Files> FileSpool<'a, R> {
    /// An empty spool.
    pub fn new(spools: &'a Spools<'a, R>) -> FileSpool<'a, R>
        ensures { result.begin ≡ result.end }
    {
        FileSpool {
            spools,
            file: None,
            begin: 0,
            end: 0,
            failures: 0,
        }
    }

    /// Writes the bytes behind those that it holds, which takes them once they are counted. It returns whether it
    /// could.
    fn write_behind(&mut self, bytes: &[u8]) -> bool
        ensures same { HoldsTheSame self.old.begin self.old.end self.new.begin self.new.end }
        ensures failures { self.new.failures ≡ self.old.failures }
    {
        if self.file.is_none() {
            self.file = self.spools.open().ok();
        }
        let Some(file) = &mut self.file else {
            return false;
        };
        file.seek(SeekFrom::Start(self.end)).is_ok() && file.write_all(bytes).is_ok()
    }

    /// Moves some of its first bytes behind those of the vector, and gives the file up once none is left.
    fn take_out(&mut self, into: &mut Vec<u8>) -> Result<(), SpoolFailed>
        ensures some { OnOk result (vec_len into.old < vec_len into.new) }
        ensures same { vec_len into.new + (self.new.end - self.new.begin)
            ≡ vec_len into.old + (self.old.end - self.old.begin) }
        ensures failures { self.new.failures ≡ self.old.failures }
    {
        let begin = self.begin;
        let count = (self.end - begin).min(MOST_PULLED);
        let Some(file) = &mut self.file else {
            return Err(SpoolFailed);
        };
        if count == 0 || !read_behind(file, begin, count, into) {
            return Err(SpoolFailed);
        }
        self.begin += count;
        if self.begin == self.end {
            self.forget_file();
        }
        Ok(())
    }

    /// Takes the bytes behind those that it holds, and returns whether it could.
    fn keep(&mut self, bytes: &[u8]) -> bool
        ensures begin { self.new.begin ≡ self.old.begin }
        ensures all { result ≡ true → self.new.end ≡ self.old.end + length bytes.now }
        ensures same { result ≡ false → self.new.end ≡ self.old.end }
        ensures failures { self.new.failures ≡ self.old.failures }
    {
        let count = bytes.len() as u64;
        let Some(end) = self.end.checked_add(count) else {
            return false;
        };
        if !self.spools.charge(count) {
            return false;
        }
        if !self.write_behind(bytes) {
            self.spools.give_back(count);
            return false;
        }
        self.end = end;
        true
    }

    /// Gives the file up, once all that it holds was taken.
    fn forget_file(&mut self)
        ensures empty { self.new.begin ≡ self.new.end }
        ensures failures { self.new.failures ≡ self.old.failures }
    {
        self.spools.give_back(self.end);
        self.begin = 0;
        self.end = 0;
        drop(self.file.take());
    }
}

/// Reads so many bytes of the file behind those of the vector, or leaves it as it was. It returns whether it could.
fn read_behind<F: Read + Seek>(file: &mut F, begin: u64, count: u64, into: &mut Vec<u8>) -> bool
    ensures read { result ≡ true → vec_len into.new ≡ vec_len into.old + count }
    ensures same { result ≡ false → vec_len into.new ≡ vec_len into.old }
{
    let before = into.len();
    let Some(whole) = before.checked_add(count as usize) else {
        return false;
    };
    if file.seek(SeekFrom::Start(begin)).is_err() || into.resize(whole, 0).is_err() {
        return false;
    }
    if file.read_exact(&mut into[before..]).is_err() {
        into.truncate(before);
        return false;
    }
    true
}

impl<R: Files> Drop for FileSpool<'_, R> {
    fn drop(self) {
        let FileSpool {
            spools,
            file,
            begin: _,
            end,
            failures: _,
        } = self;
        spools.give_back(end);
        drop(file);
    }
}

impl<R: Files> Spool for FileSpool<'_, R> {
    ghost size = { λ s. s.end - s.begin };

    ghost failures = { λ s. s.failures };

    fn is_empty(&self) -> bool {
        self.end - self.begin == 0
    }

    fn push(&mut self, bytes: &[u8]) -> Result<(), SpoolFailed> {
        if bytes.is_empty() {
            return Ok(());
        }
        if !self.keep(bytes) {
            self.failures = self.failures.saturating_add(1);
            return Err(SpoolFailed);
        }
        Ok(())
    }

    fn pull(&mut self, into: &mut Vec<u8>) -> Result<(), SpoolFailed> {
        let pulled = self.take_out(into);
        match pulled {
            Ok(()) => {}
            Err(SpoolFailed) => self.failures = self.failures.saturating_add(1),
        }
        pulled
    }
}
