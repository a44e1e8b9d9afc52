//! The way to a client: its socket, and the bytes that the socket hasn't taken yet.
ghost use Rattle.std.specs.Prelude.{◌≡◌, ◌≢◌, ◌<◌, ◌≤◌, ◌+◌, ◌-◌, ◌^◌, min, nat_lt, None, Some, IfSome, OnOk, OnErr, false};
ghost use Rattle.std.specs.Io.KnownBytes.{Keeps, Appends, IsAtEnd};
ghost use Rattle.dep_types.specs.Writing.{TakesPart};

use crate::backlog::Backlog;
use crate::socket::{Delivered, Sink};
use crate::spool::Spool;
use dep_types::{Outlet, WriteFailed};
use std::alloc::Global;

/// How often a flush sends at most.
const MOST_SENDS: u32 = 16;

/// What a flush left.
#[derive(Clone, Copy, PartialEq, Eq)]
pub enum Flushed {
    /// Nothing is owed any more.
    All,
    /// More can be sent at once.
    Part,
    /// The socket takes no more now.
    Later,
    /// The socket or the spool failed.
    Failed,
}

/// The way to a client: its socket, and the bytes that the socket hasn't taken yet, first those in memory
/// and then those in a spool.
#[derive(Drop)]
pub struct Wire<K, S> {
    sink: K,
    backlog: Backlog<S>,
    failures: u64,
    delivered: u64,
    written: u64,
}

impl<K: Sink, S: Spool> Wire<K, S> {
    ghost use Rattle.dep_outbox.specs.Wires.{reported, owed, owed_count, Blames, CountsSent, HasFailed, IsUnharmed};

    /// A wire that owes what the spool holds.
    #[tactic(auto, using(crate::proofs::WireLemmas::nothing_reported))]
    pub fn new(alloc: Global, sink: K, spool: S) -> Wire<K, S>
        ensures sink { result.sink ≡ sink }
        ensures spool { result.backlog.spool ≡ spool }
        ensures count { owed_count S.size result ≡ S.size spool }
        // Over a socket that took nothing and an empty spool it took nothing.
        ensures fresh { IsAtEnd (K.taken sink) → IsAtEnd (S.held spool)
            → IsAtEnd (reported K.taken S.held result) }
    {
        Wire {
            sink,
            backlog: Backlog::new(alloc, spool),
            failures: 0,
            delivered: 0,
            written: 0,
        }
    }

    /// Sends what is owed, as far as the socket takes it.
    pub fn flush(&mut self) -> Flushed
        ensures keeps { Keeps (reported K.taken S.held self.old) (reported K.taken S.held self.new) }
        ensures all { result ≡ Flushed.All → IsAtEnd (owed S.held self.new) }
        ensures none { result ≡ Flushed.All → owed_count S.size self.new ≡ 0 }
        ensures fewer { result ≡ Flushed.Part
            → owed_count S.size self.new < owed_count S.size self.old }
        ensures delivers { min (self.old.delivered
            + (owed_count S.size self.old - owed_count S.size self.new)) (2 ^ 64 - 1)
            ≤ self.new.delivered }
        ensures no_less { self.new.delivered + owed_count S.size self.new
            ≤ self.old.delivered + owed_count S.size self.old }
        ensures no_more { owed_count S.size self.new ≤ owed_count S.size self.old }
        ensures failures { self.new.failures ≡ self.old.failures }
        // What it reports has its cause.
        ensures blames { Blames (K.halts self.old.sink) (K.halts self.new.sink)
            (S.failures self.old.backlog.spool) (S.failures self.new.backlog.spool) result }
    {
        for sends in 0..MOST_SENDS {
            if let Some(flushed) = self.send_once() {
                return flushed;
            }
        }
        Flushed::Part
    }

    /// Sends what is in memory once, and before that fills it from the spool where all of it is sent.
    fn send_once(&mut self) -> Option<Flushed>
        ensures keeps { Keeps (reported K.taken S.held self.old) (reported K.taken S.held self.new) }
        ensures all { result ≡ Some Flushed.All → IsAtEnd (owed S.held self.new) }
        ensures none { result ≡ Some Flushed.All → owed_count S.size self.new ≡ 0 }
        ensures part { result ≢ Some Flushed.Part }
        ensures fewer { result ≡ None
            → owed_count S.size self.new < owed_count S.size self.old }
        ensures counts { CountsSent self.old.delivered (owed_count S.size self.old)
            self.new.delivered (owed_count S.size self.new) }
        ensures failures { self.new.failures ≡ self.old.failures }
        ensures blames { IfSome result (λ flushed. Blames (K.halts self.old.sink)
            (K.halts self.new.sink) (S.failures self.old.backlog.spool)
            (S.failures self.new.backlog.spool) flushed) }
        ensures halts { result ≡ None → K.halts self.new.sink ≡ K.halts self.old.sink }
        ensures spool { result ≡ None
            → S.failures self.new.backlog.spool ≡ S.failures self.old.backlog.spool }
    {
        if self.backlog.is_empty() {
            return Some(Flushed::All);
        }
        if self.backlog.fill().is_err() {
            return Some(Flushed::Failed);
        }
        match self.sink.send(self.backlog.front()) {
            Delivered::Bytes(n) => {
                self.backlog.consume(n);
                self.delivered = self.delivered.saturating_add(n as u64);
                None
            }
            Delivered::Later => Some(Flushed::Later),
            Delivered::Failed => Some(Flushed::Failed),
        }
    }

    /// Takes the bytes behind those that it took.
    fn take(&mut self, bytes: &[u8]) -> Result<(), WriteFailed>
        ensures ok { OnOk result
            (Appends (reported K.taken S.held self.old) (reported K.taken S.held self.new) bytes.now) }
        ensures err { OnErr result
            (TakesPart (reported K.taken S.held self.old) (reported K.taken S.held self.new) bytes.now) }
        ensures failures { self.new.failures ≡ self.old.failures }
        ensures whole { OnOk result (IsUnharmed (K.halts self.old.sink) (K.halts self.new.sink)
            (S.failures self.old.backlog.spool) (S.failures self.new.backlog.spool)) }
        ensures blames { OnErr result (HasFailed (K.halts self.old.sink) (K.halts self.new.sink)
            (S.failures self.old.backlog.spool) (S.failures self.new.backlog.spool)) }
    {
        if bytes.is_empty() {
            return Ok(());
        }
        self.make_room(bytes)?;
        Ok(self.backlog.push(bytes)?)
    }

    /// Sends what is owed, where the bytes would be the first in the spool.
    fn make_room(&mut self, bytes: &[u8]) -> Result<(), WriteFailed>
        ensures keeps { Keeps (reported K.taken S.held self.old) (reported K.taken S.held self.new) }
        ensures failures { self.new.failures ≡ self.old.failures }
        ensures whole { OnOk result (IsUnharmed (K.halts self.old.sink) (K.halts self.new.sink)
            (S.failures self.old.backlog.spool) (S.failures self.new.backlog.spool)) }
        ensures blames { OnErr result (HasFailed (K.halts self.old.sink) (K.halts self.new.sink)
            (S.failures self.old.backlog.spool) (S.failures self.new.backlog.spool)) }
    {
        if self.backlog.would_spill(bytes) && self.flush() == Flushed::Failed {
            return Err(WriteFailed);
        }
        Ok(())
    }

    /// Whether the socket hasn't taken all bytes yet.
    pub fn owes(&self) -> bool
        ensures none { result ≡ false → IsAtEnd (owed S.held self.now) }
        ensures exact { result ≡ nat_lt 0 (owed_count S.size self.now) }
    {
        !self.backlog.is_empty()
    }

    /// How many bytes the socket took, up to 2^64 - 1.
    pub fn delivered(&self) -> u64
        ensures { result ≡ self.now.delivered }
    {
        self.delivered
    }

    /// How many bytes were written to it by writes that didn't fail, up to 2^64 - 1.
    pub fn written(&self) -> u64
        ensures { result ≡ self.now.written }
    {
        self.written
    }

    /// Shuts down the half that sends, so that the client sees that nothing more comes.
    pub fn finish(&mut self)
        ensures taken { reported K.taken S.held self.new ≡ reported K.taken S.held self.old }
        ensures halts { K.halts self.new.sink ≡ K.halts self.old.sink }
        ensures backlog { self.new.backlog ≡ self.old.backlog }
    {
        self.sink.finish();
    }
}

impl<K: Sink, S: Spool> Outlet for Wire<K, S> {
    ghost use Rattle.dep_types.specs.Writing.{HasRisen};
    ghost use Rattle.dep_outbox.specs.Wires.{reported, HasFailed, IsUnharmed};

    ghost taken = { λ w. reported K.taken S.held w };

    ghost failures = { λ w. w.failures };

    // A write fails only where the socket or the spool did.
    fn write(&mut self, bytes: &[u8]) -> Result<(), WriteFailed>
        ensures ok { OnOk result
            (Appends (reported K.taken S.held self.old) (reported K.taken S.held self.new) bytes.now) }
        ensures err { OnErr result
            (TakesPart (reported K.taken S.held self.old) (reported K.taken S.held self.new) bytes.now) }
        ensures count { OnOk result (self.new.failures ≡ self.old.failures) }
        ensures cause { OnErr result (HasRisen self.old.failures self.new.failures) }
        ensures whole { OnOk result (IsUnharmed (K.halts self.old.sink) (K.halts self.new.sink)
            (S.failures self.old.backlog.spool) (S.failures self.new.backlog.spool)) }
        ensures blames { OnErr result (HasFailed (K.halts self.old.sink) (K.halts self.new.sink)
            (S.failures self.old.backlog.spool) (S.failures self.new.backlog.spool)) }
    {
        let taken = self.take(bytes);
        match taken {
            Ok(()) => self.written = self.written.saturating_add(bytes.len() as u64),
            Err(WriteFailed) => self.failures = self.failures.saturating_add(1),
        }
        taken
    }
}
