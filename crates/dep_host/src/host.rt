//! All connections, over one hub.
ghost use Rattle.std.specs.Prelude.{◌≡◌, ◌≤◌, ℕ, None, length, get_or, IfOk};

use crate::ending::{Cause, Shut};
use crate::events::{comes_from, origin, reject, rejection_for};
use crate::place::{is_read, unfinished};
use crate::share::Share;
use dep_hub::{Archive, Hub};
use dep_outbox::{Sink, Source, Spool};
use dep_slot::{
    Client, Closing, HostLog, Limits, ReadBuffer, Rejection, Slot, Time, Turn, TurnOutcome,
};
use std::alloc::{AllocError, Global};
use std::mem;
use std::net::IpAddr;

/// How many connections are served at once.
pub const MOST_SEATS: usize = 1_024;

/// The hub, and the connections that are served.
#[derive(Drop)]
pub struct Host<A, R, K, S> {
    hub: Hub<A>,
    slots: Vec<Option<Slot<R, K, S>>>,
    /// Nobody is at this place, nor behind it.
    end: usize,
    limits: Limits,
    /// Since when it is shut, and why, if it is.
    shut: Option<Shut>,
    /// The place from which contents are sent on in the next round.
    first: usize,
    /// Whether its store had work left when it worked ahead last. Clauses alone read it.
    is_left: bool,
    /// How often it could not be known whether the store is open, up to 2^64 - 1. Clauses alone read it.
    unanswered: u64,
    ghost within: { end ≤ length slots.items },
    ghost free: { (at : ℕ) → end ≤ at → get_or slots.items at None ≡ None },
}

impl<A: Archive, R: Source + Drop, K: Sink + Drop, S: Spool + Drop> Host<A, R, K, S> {
    ghost use Rattle.std.specs.Prelude.{◌⊎◌, ◌<◌, List, [], ◌∷◌, nat_lt, IfErr, IfSome, is_some, IsSome, IsNone, true, false};
    ghost use Rattle.std.specs.Io.KnownBytes.{IsAtEnd};
    ghost use Rattle.dep_outbox.specs.Wires.{reported};
    ghost use Rattle.dep_exchange.specs.ArchiveCalls.{WorkedAhead, Runs};
    ghost use Rattle.dep_hub.specs.WorkingAhead.{RestsAhead};
    ghost use Rattle.dep_host.specs.Actions.{HostAction, IsEmpty, position, slot_at, unfinished_of, unfinished_in};
    ghost use Rattle.dep_host.specs.Hosting.{Steps, ServesSlot, Closed, GoesRound, EvictsLargest, HostStays, HasTime, MayGo, farewell, IsVacant, HasNothingToDo};
    ghost use Rattle.dep_host.specs.Coming.{origin, slots_from};
    ghost use Rattle.dep_host.specs.Rounds.{is_overdue};
    ghost use Rattle.dep_slot.specs.Causes.{causes_of};
    ghost use Rattle.dep_slot.specs.Notes.{GrowsWhereShown};
    ghost use Rattle.dep_host.specs.Meeting.{Admits, IsAsked, IsOffer, MayEnd, Stops, Wakes, refusal_of};

    /// A host without connections, which are bounded by the limits. Where memory is refused the hub is handed back.
    pub fn new(alloc: Global, hub: Hub<A>, limits: Limits) -> Result<Host<A, R, K, S>, Hub<A>>
        ensures hub { IfOk result (λ host. host.hub ≡ hub) }
        ensures limits { IfOk result (λ host. host.limits ≡ limits) }
        ensures unreported { IfOk result (λ host. IsNone host.shut) }
        ensures empty { IfOk result (λ host. (at : ℕ) → slot_at at host.slots.items ≡ None) }
        ensures kept { IfErr result (λ handed_back. handed_back ≡ hub) }
    {
        let Ok(slots) = empty_slots(alloc) else {
            return Err(hub);
        };
        Ok(Host {
            hub,
            slots,
            end: 0,
            limits,
            shut: None,
            first: 0,
            is_left: false,
            unanswered: 0,
        })
    }

    /// Hands the hub back. The connections are closed by `Hub::close`, or end with it.
    pub fn into_hub(self) -> Hub<A>
        ensures { result ≡ self.hub }
    {
        let Host {
            hub,
            slots: _,
            end: _,
            limits: _,
            shut: _,
            first: _,
            is_left: _,
            unanswered: _,
        } = self;
        hub
    }

    /// Asks at a second whether the store is open, unless it is shut. Where it is told that it isn't, it is
    /// shut from then on: no client is let in, and no connection is read. It returns whether it isn't shut.
    pub fn is_open(&mut self, second: u64) -> bool
        ensures asks { IsAsked A.condition A.call_log R.unread K.taken S.held self.old self.new
            second }
        ensures slots { self.new.slots ≡ self.old.slots }
        ensures unreported { result ≡ true → IsNone self.new.shut }
        ensures shut { result ≡ false → IsSome self.new.shut }
    {
        if self.shut.is_some() {
            return false;
        }
        match self.hub.is_open() {
            Ok(false) => {
                self.shut = Some(Shut {
                    second,
                    cause: Cause::Store,
                });
                false
            }
            Ok(true) => true,
            Err(_fault) => {
                self.unanswered = self.unanswered.saturating_add(1);
                true
            }
        }
    }

    /// Is told at a second to stop: it is shut from then on, unless it was before.
    pub fn stop(&mut self, second: u64)
        ensures { Stops self.old self.new second }
    {
        if self.shut.is_none() {
            self.shut = Some(Shut {
                second,
                cause: Cause::Stop,
            });
        }
    }

    /// Does a part of the work that a later request would have to wait for, or one that is kept back until then, and
    /// returns whether more is left (`Hub::work_ahead`). Where this shuts the store, `is_open` returns so later.
    pub fn work_ahead(&mut self) -> bool
        ensures goes { Steps A.condition R.unread K.taken S.held (position self.old) []
            (position self.new) }
        ensures stays { HostStays self.old self.new }
        ensures slots { self.new.slots ≡ self.old.slots }
        ensures left { self.new.is_left ≡ result }
        ensures prepares { RestsAhead A.condition self.old.hub self.new.hub }
        ensures asked { Runs (WorkedAhead result) (A.call_log self.old.hub.store)
            (A.call_log self.new.hub.store) }
    {
        self.is_left = self.hub.work_ahead();
        self.is_left
    }

    /// Why it ends at a second, if it does: it is shut, and all connections are closed, or an idle time has
    /// passed since.
    pub fn ending(&self, second: u64) -> Option<Cause>
        ensures ends { IfSome result (λ cause. MayEnd self.now cause (second ∷ [])) }
        ensures stays { IsNone result → is_overdue self.now.shut second self.now.limits ≡ false }
    {
        match self.shut {
            Some(shut) if self.is_empty() || self.limits.is_past(shut.second, second) => {
                Some(shut.cause)
            }
            Some(_) | None => None,
        }
    }

    /// Returns the place at which a further connection can be seated, if there is one. There is none once it
    /// is shut.
    pub fn vacancy(&self) -> Option<usize>
        ensures { IsOffer self.now result }
    {
        if self.shut.is_some() {
            return None;
        }
        for at in 0..self.end {
            if self.slots[at].is_none() {
                return Some(at);
            }
        }
        if self.end < self.slots.len() {
            Some(self.end)
        } else {
            None
        }
    }

    /// Why a client is rejected that comes where there is no vacancy.
    pub fn refusal(&self) -> Rejection
        ensures { result ≡ refusal_of self.now.shut }
    {
        match self.shut {
            Some(shut) => match shut.cause {
                Cause::Store => Rejection::Shut,
                Cause::Stop => Rejection::Stopped,
            },
            None => Rejection::Full,
        }
    }

    /// Whether nobody is there.
    pub fn is_empty(&self) -> bool
        ensures { result ≡ true → IsEmpty (position self.now) }
    {
        for at in 0..self.end {
            if self.slots[at].is_some() {
                return false;
            }
        }
        true
    }

    /// Opens a connection over a socket that has taken nothing, and puts it there. Where it is
    /// refused its client is cut off.
    pub fn admit<L: HostLog>(
        &mut self,
        at: usize,
        client: Client<R, K, S>,
        log: &mut L,
    ) -> Result<(), Rejection>
        requires vacant { IsVacant self.old at }
        requires fresh { IsAtEnd (reported K.taken S.held client.wire) }
        ensures { Admits A.condition R.unread K.taken S.held L.notes self.old self.new
            log.old log.new at client result }
    {
        if self.slots_from(client.address) >= self.limits.address_connections {
            return Err(reject(client, Rejection::Address, log));
        }
        let connection = match self.hub.connect() {
            Ok(connection) => connection,
            Err(fault) => return Err(reject(client, rejection_for(fault), log)),
        };
        log.opened(connection, client.address);
        self.end = self.end.max(at + 1);
        drop(mem::replace(&mut self.slots[at], Some(Slot::new(connection, client))));
        Ok(())
    }

    /// How many are there that come from an address.
    fn slots_from(&self, address: IpAddr) -> usize
        ensures { result ≡ slots_from (origin address) self.now.slots.items }
    {
        let from = origin(address);
        let mut count = 0;
        for at in 0..self.end {
            if comes_from(&self.slots[at], from) {
                count += 1;
            }
        }
        count
    }

    /// Takes note that a socket may be ready.
    pub fn set_ready(&mut self, at: usize, is_readable: bool, is_writable: bool)
        ensures { Wakes self.old self.new at is_readable is_writable }
    {
        if at < self.slots.len() {
            if let Some(slot) = &mut self.slots[at] {
                slot.set_ready(is_readable, is_writable);
            }
        }
    }

    /// Serves each place once. Where more bytes of unfinished requests are kept than may be, it reads no more of these,
    /// and then closes the connection that has most. No more than `MOST_SENT` contents are sent on, and each within any
    /// 17 rounds. It returns whether a connection can go on at once.
    pub fn round<L: HostLog>(&mut self, buffer: &mut ReadBuffer, time: &Time, log: &mut L) -> bool
        ensures goes { GoesRound A.condition R.unread K.taken S.held S.size
            (causes_of R.halts K.halts S.failures) (position self.old) (position self.new)
            self.old.first self.new.first time.now (L.notes log.old) (L.notes log.new) }
        ensures left { (at : ℕ)
            → HasTime time.now.second self.new.limits (slot_at at self.new.slots.items) }
        ensures waits { result ≡ false
            → (at : ℕ) → HasNothingToDo S.size (slot_at at self.new.slots.items) }
        ensures stays { HostStays (record self.old { first = self.new.first }) self.new }
    {
        let is_full = self.is_full();
        let is_shut = self.shut.is_some();
        let mut share = Share::new(self.first);
        let mut is_busy = false;
        for at in 0..self.end {
            let turn = Turn {
                time: *time,
                is_full,
                is_shut,
                may_send: share.is_turn(at),
            };
            let served = self.serve_at(at, buffer, &turn, log);
            share.count(at, served.has_sent);
            is_busy = is_busy | served.is_busy;
        }
        self.first = share.next;
        self.evict_largest(time.second, log);
        self.draw_in();
        is_busy
    }

    /// Gives the connection at a place its turn, and closes it where it is over, was silent for too long or is too slow.
    fn serve_at<L: HostLog>(
        &mut self,
        at: usize,
        buffer: &mut ReadBuffer,
        turn: &Turn,
        log: &mut L,
    ) -> TurnOutcome
        requires there { at < length self.old.slots.items }
        requires shut { turn.now.is_shut ≡ is_some self.old.shut }
        ensures goes { ServesSlot A.condition R.unread K.taken S.held S.size
            (causes_of R.halts K.halts S.failures) (position self.old) (position self.new) at
            turn.now.time turn.now.is_full turn.now.may_send result.has_sent (L.notes log.old)
            (L.notes log.new) }
        ensures here { HasTime turn.now.time.second self.new.limits
            (slot_at at self.new.slots.items) }
        ensures waits { result.is_busy ≡ false
            → HasNothingToDo S.size (slot_at at self.new.slots.items) }
        ensures others { (place : ℕ) → (place ≡ at → ⊥)
            → slot_at place self.new.slots.items ≡ slot_at place self.old.slots.items }
        ensures stays { HostStays self.old self.new }
    {
        let Some(slot) = &mut self.slots[at] else {
            return TurnOutcome {
                has_sent: false,
                is_busy: false,
            };
        };
        let is_awaited = slot.is_awaited(&self.hub);
        slot.begin_turn(turn.time.second, &self.limits, turn.is_shut, is_awaited);
        let outcome = slot.take_turn(&mut self.hub, buffer, turn, log);
        let closing = slot.closing(turn.time.second, &self.limits);
        if let Some(closing) = closing {
            self.close(at, turn.time.second, closing, log);
            return TurnOutcome {
                has_sent: outcome.has_sent,
                is_busy: false,
            };
        }
        outcome
    }

    /// Closes the connection there, for a reason.
    fn close<L: HostLog>(&mut self, at: usize, second: u64, closing: Closing, log: &mut L)
        requires there { at < length self.old.slots.items }
        requires done { MayGo (position self.old) second closing
            (slot_at at self.old.slots.items) }
        ensures goes { Closed A.condition R.unread K.taken S.held self.old self.new at second
            closing }
        ensures noted { GrowsWhereShown (L.notes log.old) (L.notes log.new)
            (farewell closing (slot_at at self.old.slots.items)) }
    {
        if let Some(slot) = self.slots[at].take() {
            let connection = slot.connection();
            self.hub.close(connection);
            slot.break_off(log);
            log.closed(connection, slot.address(), closing, slot.bytes());
            drop(slot);
        }
    }

    /// Where more bytes of unfinished requests are kept than may be, closes the connection that has
    /// most of them, unless one of its requests may be complete, which is answered first.
    fn evict_largest<L: HostLog>(&mut self, second: u64, log: &mut L)
        ensures goes { (actions : List HostAction) × EvictsLargest A.condition R.unread K.taken S.held
            (position self.old) (position self.new) second actions (L.notes log.old)
            (L.notes log.new) }
        ensures left { (at : ℕ) → (slot_at at self.new.slots.items ≡ slot_at at self.old.slots.items)
            ⊎ (slot_at at self.new.slots.items ≡ None) }
        ensures stays { HostStays self.old self.new }
    {
        let at = self.largest();
        if self.is_full() && at < self.slots.len() && is_read(&self.slots[at]) {
            self.close(at, second, Closing::Large, log);
        }
    }

    /// Moves the end in front of the places behind which nobody is.
    fn draw_in(&mut self)
        ensures { (position self.new ≡ position self.old) × HostStays self.old self.new }
    {
        for _ in 0..self.end {
            if self.slots[self.end - 1].is_some() {
                return;
            }
            self.end -= 1;
        }
    }

    /// Where the most bytes of unfinished requests are kept.
    fn largest(&self) -> usize
        ensures { (place : ℕ) → unfinished_of (slot_at place self.now.slots.items)
            ≤ unfinished_of (slot_at result self.now.slots.items) }
    {
        let mut largest = 0;
        for at in 0..self.end {
            if unfinished(&self.slots[at]) > unfinished(&self.slots[largest]) {
                largest = at;
            }
        }
        largest
    }

    /// Whether more bytes of unfinished requests are kept than may be.
    fn is_full(&self) -> bool
        ensures { result ≡ nat_lt self.now.limits.unfinished_bytes
            (unfinished_in self.now.slots.items) }
    {
        let mut kept: u128 = 0;
        for at in 0..self.end {
            kept += unfinished(&self.slots[at]) as u128;
        }
        kept > self.limits.unfinished_bytes as u128
    }
}

/// Room for all connections.
fn empty_slots<R: Drop, K: Drop, S: Drop>(
    alloc: Global,
) -> Result<Vec<Option<Slot<R, K, S>>>, AllocError>
    ensures { IfOk result (λ slots. (at : ℕ) → get_or slots.items at None ≡ None) }
{
    let mut slots = Vec::with_capacity(alloc, MOST_SEATS)?;
    for _ in 0..MOST_SEATS {
        slots.push(None)?;
    }
    Ok(slots)
}
