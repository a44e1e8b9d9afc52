//! The bytes that wait to be sent.
ghost use Rattle.std.specs.Prelude.{◌≡◌, ◌==◌, ◌<◌, ◌≤◌, ◌+◌, ◌-◌, length, take, OnOk, OnErr, true, false};
ghost use Rattle.std.specs.Io.KnownBytes.{Keeps, Appends, Consumes, IsAtEnd};
ghost use Rattle.dep_types.specs.Writing.{TakesPart, HasRisen};

use crate::spool::{Spool, SpoolFailed};
use std::alloc::Global;

/// How many bytes wait in memory at most.
const MOST_IN_MEMORY: usize = 262_144;

/// The bytes that wait to be sent, first those in memory and then those in a spool.
#[derive(Drop)]
pub(crate) struct Backlog<S> {
    /// Those before `sent` wait no more. It is empty once all are sent.
    front: Vec<u8>,
    sent: usize,
    spool: S,
    ghost within: { sent ≤ length front.items - 1 },
}

impl<S: Spool> Backlog<S> {
    ghost use Rattle.dep_outbox.specs.Wires.{front_of, waiting, waiting_count};

    /// The bytes that the spool holds. It takes no memory.
    pub fn new(alloc: Global, spool: S) -> Backlog<S>
        ensures spool { result.spool ≡ spool }
        ensures empty { IsAtEnd (S.held spool) → IsAtEnd (waiting S.held result) }
        ensures count { waiting_count S.size result ≡ S.size spool }
    {
        Backlog {
            front: Vec::new(alloc),
            sent: 0,
            spool,
        }
    }

    /// Whether no byte waits.
    pub fn is_empty(&self) -> bool
        ensures empty { result ≡ true → IsAtEnd (waiting S.held self.now) }
        ensures exact { result ≡ (waiting_count S.size self.now == 0) }
    {
        self.front.is_empty() && self.spool.is_empty()
    }

    /// Takes bytes out of the spool, where none in memory waits.
    pub fn fill(&mut self) -> Result<(), SpoolFailed>
        ensures keeps { Keeps (waiting S.held self.old) (waiting S.held self.new) }
        ensures count { waiting_count S.size self.new ≡ waiting_count S.size self.old }
        ensures ok { OnOk result (S.failures self.new.spool ≡ S.failures self.old.spool) }
        ensures cause { OnErr result (HasRisen (S.failures self.old.spool)
            (S.failures self.new.spool)) }
    {
        if !self.front.is_empty() {
            return Ok(());
        }
        self.spool.pull(&mut self.front)
    }

    /// The bytes in memory that wait.
    pub fn front(&self) -> &[u8]
        ensures { result.now ≡ front_of self.now }
    {
        &self.front[self.sent..]
    }

    /// Takes so many off the front, which were sent.
    pub fn consume(&mut self, count: usize)
        requires { count ≤ length (front_of self.old) }
        ensures bytes { Consumes (waiting S.held self.old) (waiting S.held self.new)
            (take count (front_of self.old)) }
        ensures count { waiting_count S.size self.new + count
            ≡ waiting_count S.size self.old }
        ensures spool { self.new.spool ≡ self.old.spool }
    {
        self.sent += count;
        if self.sent == self.front.len() {
            self.front.clear();
            self.sent = 0;
        }
    }

    /// Keeps the bytes behind those that wait, or fails after a proper prefix of them.
    pub fn push(&mut self, bytes: &[u8]) -> Result<(), SpoolFailed>
        ensures ok { OnOk result
            (Appends (waiting S.held self.old) (waiting S.held self.new) bytes.now) }
        ensures err { OnErr result
            (TakesPart (waiting S.held self.old) (waiting S.held self.new) bytes.now) }
        ensures count { OnOk result (S.failures self.new.spool ≡ S.failures self.old.spool) }
        ensures cause { OnErr result (HasRisen (S.failures self.old.spool)
            (S.failures self.new.spool)) }
    {
        let fits = self.spool.is_empty() && self.has_room(bytes);
        if fits && self.front.extend_from_slice(bytes).is_ok() {
            return Ok(());
        }
        self.spool.push(bytes)
    }

    /// Whether the bytes would be the first in the spool.
    pub fn would_spill(&self, bytes: &[u8]) -> bool {
        !self.has_room(bytes) && self.spool.is_empty()
    }

    /// Whether memory may hold the bytes too.
    fn has_room(&self, bytes: &[u8]) -> bool {
        bytes.len() <= MOST_IN_MEMORY && self.front.len() <= MOST_IN_MEMORY - bytes.len()
    }
}
