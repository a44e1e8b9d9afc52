//! A connection that is served.
ghost use Rattle.std.specs.Prelude.{if◌then◌else◌, ◌≡◌, ◌≢◌, ◌<◌, ◌≤◌, ◌+◌, ◌-◌, ◌^◌, ◌||◌, ◌&&◌, min, nat_lt, length, true, false};
ghost use Rattle.std.specs.Io.KnownBytes.{IsAtEnd};
ghost use Rattle.dep_hub.specs.RepresentsOwing.{is_awaited_at};
ghost use Rattle.dep_outbox.specs.Wires.{owed};
ghost use Rattle.dep_slot.specs.ConnectionStates.{StaysOrEnds, closing, counts_anew, is_ended, is_held_back, is_sending, is_under_way, phase_begun};
ghost use Rattle.dep_slot.specs.Causes.{HasCauses, causes_of};
ghost use Rattle.dep_slot.specs.Slots.{Finishes, Flushes, PutsOff, IsDue, TakesTurn, MayRead, MayAnswer, MaySend, owes_some, slot_action, woken_slot};

use crate::client::Client;
use crate::connection_state::{ConnectionState, NextAction, Phase, phase_begun};
use crate::limits::Limits;
use crate::log::{Bytes, Closing, HostLog};
use crate::read_buffer::ReadBuffer;
use dep_hub::{Archive, ConnId, Hub, Next, SentOn};
use dep_moment::Moment;
use dep_outbox::{Flushed, Received, Sink, Source, Spool, Wire};
use std::net::IpAddr;

/// When something happens.
#[derive(Clone, Copy)]
pub struct Time {
    /// The moment in replies.
    pub moment: Moment,
    /// Seconds that never go back, by which silence is measured.
    pub second: u64,
}

/// How a turn of a round goes.
#[derive(Clone, Copy)]
pub struct Turn {
    pub time: Time,
    /// Whether more bytes of unfinished requests are kept than may be, so that of none of these more
    /// is read.
    pub is_full: bool,
    /// Whether the host is shut, so that nothing more is read.
    pub is_shut: bool,
    /// Whether its content may be sent on. In a round that is so of a few.
    pub may_send: bool,
}

/// What a turn came to.
#[derive(Clone, Copy)]
pub struct TurnOutcome {
    /// Whether a content was sent on.
    pub has_sent: bool,
    /// Whether the connection can go on at once.
    pub is_busy: bool,
}

/// A connection of the hub, the two ways to its client, and how far it is.
#[derive(Drop)]
pub struct Slot<R, K, S> {
    connection: ConnId,
    address: IpAddr,
    source: R,
    wire: Wire<K, S>,
    state: ConnectionState,
    /// How many bytes were read, up to 2^64 - 1.
    received: u64,
    /// How many bytes the wire had taken before the last reply, up to 2^64 - 1.
    reply_start: u64,
}

impl<R: Source, K: Sink, S: Spool> Slot<R, K, S> {
    /// A fresh connection of a client, whose socket may be ready.
    pub fn new(connection: ConnId, client: Client<R, K, S>) -> Slot<R, K, S>
        ensures number { result.connection ≡ connection }
        ensures address { result.address ≡ client.address }
        ensures source { result.source ≡ client.source }
        ensures wire { result.wire ≡ client.wire }
        ensures phase { result.state.phase ≡ Phase.Open }
        ensures readable { result.state.is_readable ≡ true }
        ensures writable { result.state.is_writable ≡ true }
        ensures moved { result.state.has_moved ≡ true }
        ensures due { result.state.is_due ≡ false }
        ensures unfinished { result.state.unfinished ≡ 0 }
        ensures received { result.received ≡ 0 }
    {
        let Client {
            source,
            wire,
            address,
        } = client;
        Slot {
            connection,
            address,
            source,
            wire,
            state: ConnectionState::new(),
            received: 0,
            reply_start: 0,
        }
    }

    /// The number that it has in its hub.
    pub fn connection(&self) -> ConnId
        ensures { result ≡ self.now.connection }
    {
        self.connection
    }

    /// Where its client connects from.
    pub fn address(&self) -> IpAddr
        ensures { result ≡ self.now.address }
    {
        self.address
    }

    /// How many bytes of its unfinished requests are kept.
    pub fn unfinished(&self) -> u64
        ensures { result ≡ self.now.state.unfinished }
    {
        self.state.unfinished
    }

    /// Whether it is read, and none of its requests may be complete.
    pub fn is_read(&self) -> bool
        ensures read { result ≡ true → self.now.state.phase ≡ Phase.Open }
        ensures unread { result ≡ false → self.now.state.phase ≡ Phase.Open → ⊥ }
    {
        self.state.phase == Phase::Open
    }

    /// How many bytes were read of it, and taken by its socket.
    pub fn bytes(&self) -> Bytes
        ensures received { result.received ≡ self.now.received }
        ensures sent { result.sent ≡ self.now.wire.delivered }
    {
        Bytes {
            received: self.received,
            sent: self.wire.delivered(),
        }
    }

    /// Takes note that its socket may be ready.
    pub fn set_ready(&mut self, is_readable: bool, is_writable: bool)
        ensures { self.new ≡ woken_slot self.old is_readable is_writable }
    {
        self.state.is_readable |= is_readable;
        self.state.is_writable |= is_writable;
    }

    /// Whether a content is sent behind its last reply.
    pub fn is_sending(&self) -> bool
        ensures { result ≡ is_sending self.now.state.phase }
    {
        self.state.phase.is_sending()
    }

    /// Whether a request waits for the content that is sent to it.
    pub fn is_awaited<A: Archive>(&self, hub: &Hub<A>) -> bool
        ensures { result ≡ is_sending self.now.state.phase
            && is_awaited_at hub.now.connections.items self.now.connection }
    {
        self.is_sending() && hub.is_awaited(self.connection)
    }

    /// Begins its turn. Once the host is shut it is read no more. `is_awaited` tells whether a request waits
    /// for the content that is sent to it.
    pub fn begin_turn(&mut self, second: u64, limits: &Limits, is_shut: bool, is_awaited: bool)
        ensures same { self.new ≡ record self.old { state = self.new.state } }
        ensures phase { self.new.state.phase ≡ phase_begun self.old.state.phase is_shut }
        ensures readable { self.new.state.is_readable ≡ self.old.state.is_readable }
        ensures writable { self.new.state.is_writable ≡ self.old.state.is_writable }
        ensures opens { self.new.state.phase ≡ Phase.Open
            → self.old.state.phase ≡ Phase.Open }
        ensures ended { is_ended self.old.state.phase ≡ true
            → is_ended self.new.state.phase ≡ true }
        ensures shut { is_shut ≡ true → self.new.state.phase ≢ Phase.Open }
        ensures unfinished { self.new.state.unfinished ≡ self.old.state.unfinished }
        ensures awaited { self.new.state.is_awaited ≡ is_awaited }
        // Silence and slowness are measured from here on as the state's own turn begins.
        ensures moved { self.new.state.has_moved ≡ false }
        ensures since { self.new.state.since
            ≡ (if self.old.state.has_moved then second else self.old.state.since) }
        ensures due { self.new.state.is_due ≡ is_under_way self.old.state (owes_some S.size self.old) }
        ensures mark { self.new.state.mark
            ≡ (if counts_anew self.old.state (owes_some S.size self.old) second limits.now
            then second else self.old.state.mark) }
        ensures bytes { self.new.state.moved
            ≡ (if counts_anew self.old.state (owes_some S.size self.old) second limits.now
            then 0 else self.old.state.moved) }
        ensures kept_back { self.new.state.is_kept_back ≡ false }
    {
        let owes = self.wire.owes();
        self.state.begin_turn(owes, second, limits);
        self.state.is_awaited = is_awaited;
        self.state.phase = phase_begun(self.state.phase, is_shut);
    }

    /// Why it is closed now, if it is.
    pub fn closing(&self, second: u64, limits: &Limits) -> Option<Closing>
        ensures { result ≡ closing self.now.state second limits.now }
    {
        self.state.closing(second, limits)
    }

    /// Acts once, and counts what its socket took meanwhile, by which a slow client is told from a silent one. At most one
    /// piece is read, one item answered, or one step of a content sent.
    pub fn take_turn<A: Archive, L: HostLog>(
        &mut self,
        hub: &mut Hub<A>,
        buffer: &mut ReadBuffer,
        turn: &Turn,
        log: &mut L,
    ) -> TurnOutcome
        ensures turn { TakesTurn A.condition R.unread K.taken S.held S.size
            (causes_of R.halts K.halts S.failures) hub.old hub.new self.old self.new
            turn.now.time.moment turn.now.is_full turn.now.is_shut turn.now.may_send }
        // What its socket took counts.
        ensures stirs { self.old.wire.delivered < self.new.wire.delivered
            → self.new.state.has_moved ≡ true }
        ensures moved { min (self.old.state.moved
            + (self.new.wire.delivered - self.old.wire.delivered)) (2 ^ 64 - 1)
            ≤ self.new.state.moved }
        ensures noted { L.notes log.new ≡ L.notes log.old }
        ensures sent { result.has_sent ≡ true
            → (turn.now.may_send ≡ true) × (slot_action S.size self.old ≡ NextAction.Send) }
        ensures unsent { result.has_sent ≡ false → turn.now.may_send ≡ true
            → slot_action S.size self.old ≡ NextAction.Send → ⊥ }
        ensures waits { result.is_busy ≡ false → slot_action S.size self.new ≡ NextAction.Wait }
        ensures busy { slot_action S.size self.new ≡ NextAction.Wait → result.is_busy ≡ false }
    {
        let has_sent = turn.may_send && matches!(self.next_action(), NextAction::Send);
        let before = self.wire.delivered();
        self.act(hub, buffer, turn, log);
        let sent = self.wire.delivered().saturating_sub(before);
        self.state.count(sent);
        let is_busy = !matches!(self.next_action(), NextAction::Wait);
        TurnOutcome { has_sent, is_busy }
    }

    /// What it does next.
    fn next_action(&self) -> NextAction
        ensures next { result ≡ slot_action S.size self.now }
        ensures unowed { owes_some S.size self.now ≡ false → IsAtEnd (owed S.held self.now.wire) }
    {
        self.state.next_action(self.wire.owes())
    }

    /// Whether it is read: not once the host is shut, and where too many bytes of unfinished requests
    /// are kept, only if none of these is its.
    fn may_read(&self, turn: &Turn) -> bool
        ensures first { result ≡ true → turn.now.is_full ≡ true
            → self.now.state.unfinished ≡ 0 }
        ensures shut { result ≡ true → turn.now.is_shut ≡ false }
        ensures held_back { result ≡ false
            → is_held_back self.now.state turn.now.is_full turn.now.is_shut ≡ true }
    {
        !turn.is_shut && (!turn.is_full || self.state.unfinished == 0)
    }

    /// Chooses what it does, by how far it is and by what the turn allows.
    fn act<A: Archive, L: HostLog>(
        &mut self,
        hub: &mut Hub<A>,
        buffer: &mut ReadBuffer,
        turn: &Turn,
        log: &mut L,
    )
        ensures turn { TakesTurn A.condition R.unread K.taken S.held S.size
            (causes_of R.halts K.halts S.failures) hub.old hub.new self.old self.new
            turn.now.time.moment turn.now.is_full turn.now.is_shut turn.now.may_send }
        ensures moved { min self.old.state.moved (2 ^ 64 - 1) ≤ self.new.state.moved }
        ensures noted { L.notes log.new ≡ L.notes log.old }
    {
        match self.next_action() {
            NextAction::Flush => self.flush(),
            NextAction::Answer => self.answer(hub, turn.time.moment, log),
            NextAction::Send => if turn.may_send {
                self.send_on(hub, log);
            } else {
                self.put_off();
            },
            NextAction::Read => if self.may_read(turn) {
                self.read(hub, buffer);
            },
            NextAction::Finish => self.finish(),
            NextAction::Drain => self.drain(buffer),
            NextAction::Wait => {}
        }
    }

    /// Has the hub answer its next item, and tells the log, unless the item is kept back.
    fn answer<A: Archive, L: HostLog>(&mut self, hub: &mut Hub<A>, moment: Moment, log: &mut L)
        requires { IsDue S.held S.size self.old Phase.Answering NextAction.Answer }
        ensures turn { MayAnswer A.condition R.unread K.taken S.held S.size
            (causes_of R.halts K.halts S.failures) hub.old hub.new self.old self.new moment }
        ensures moved { self.new.state.moved ≡ self.old.state.moved }
        ensures noted { L.notes log.new ≡ L.notes log.old }
    {
        let mut item = log.answering(self.connection, self.address);
        self.reply_start = self.wire.written();
        match hub.reply(self.connection, moment, &mut self.wire, &mut item) {
            Some(next) => {
                let received = self.state.unfinished;
                self.state
                    .note_answer(next, hub.is_sending(self.connection));
                self.report(item, next, received, log);
                // Where it is stopped short, the next turn tries again, and takes note of that.
                let _flushed = self.wire.flush();
            }
            None => {
                self.state.keep_back();
                log.kept_back(item);
            }
        }
    }

    /// Tells the log of an item that was answered.
    fn report<L: HostLog>(&self, item: L::Item, next: Next, received: u64, log: &mut L)
        ensures { L.notes log.new ≡ L.notes log.old }
    {
        let bytes = Bytes {
            received,
            sent: self.replied(),
        };
        if self.is_sending() {
            log.begun(item, bytes);
        } else {
            log.answered(item, next, bytes);
        }
    }

    /// How many bytes the wire took since the last reply began.
    fn replied(&self) -> u64 {
        self.wire.written().saturating_sub(self.reply_start)
    }

    /// Sends a few blocks more of the content behind its last reply.
    fn send_on<A: Archive, L: HostLog>(&mut self, hub: &mut Hub<A>, log: &mut L)
        requires due { slot_action S.size self.old ≡ NextAction.Send }
        requires unowed { self.old.state.is_awaited ≡ false → IsAtEnd (owed S.held self.old.wire) }
        ensures turn { MaySend A.condition R.unread K.taken S.held S.size
            (causes_of R.halts K.halts S.failures) hub.old hub.new self.old self.new }
        ensures moved { self.new.state.moved ≡ self.old.state.moved }
        ensures noted { L.notes log.new ≡ L.notes log.old }
    {
        let sent_on = hub.send_on(self.connection, &mut self.wire);
        self.state.note_sent(sent_on);
        if sent_on != SentOn::Part {
            log.sent(self.connection, self.address, sent_on, self.replied());
        }
        // As behind an answer.
        let _left = self.wire.flush();
    }

    /// Lets its content wait for its turn, and sends meanwhile what is owed. Where that is nothing it isn't closed
    /// for that.
    fn put_off(&mut self)
        ensures { PutsOff K.taken S.held S.size (causes_of R.halts K.halts S.failures) self.old
            self.new }
    {
        if !self.wire.owes() {
            self.state.keep_back();
        } else if self.state.is_writable {
            self.flush();
        }
    }

    /// Tells the log that no more is sent of the content behind its last reply, where more of it was to be.
    pub fn break_off<L: HostLog>(&self, log: &mut L)
        ensures { L.notes log.new ≡ L.notes log.old }
    {
        if self.is_sending() {
            log.sent(self.connection, self.address, SentOn::Part, self.replied());
        }
    }

    /// Reads a piece, which the hub holds until its items are answered.
    fn read<A: Archive>(&mut self, hub: &mut Hub<A>, buffer: &mut ReadBuffer)
        requires { IsDue S.held S.size self.old Phase.Open NextAction.Read }
        ensures turn { MayRead A.condition R.unread K.taken S.held S.size
            (causes_of R.halts K.halts S.failures) hub.old hub.new self.old self.new }
        ensures moved { min self.old.state.moved (2 ^ 64 - 1) ≤ self.new.state.moved }
    {
        match buffer.receive(&mut self.source) {
            Received::Bytes(n) => {
                let arrived = hub.offer(self.connection, &buffer.bytes[..n], &mut self.wire);
                self.state.note_piece(n as u64, arrived);
                self.received = self.received.saturating_add(n as u64);
            }
            Received::Later => self.state.is_readable = false,
            Received::Ended | Received::Failed => self.state.phase = Phase::Over,
        }
    }

    /// Sends what is owed, as far as the socket takes it.
    fn flush(&mut self)
        ensures { Flushes K.taken S.held S.size (causes_of R.halts K.halts S.failures) self.old
            self.new }
    {
        match self.wire.flush() {
            Flushed::All | Flushed::Part => {}
            Flushed::Later => self.state.is_writable = false,
            Flushed::Failed => self.state.phase = Phase::Over,
        }
    }

    /// Shuts down the half that sends, so that the client sees that nothing more comes.
    fn finish(&mut self)
        ensures { Finishes K.taken S.held self.old self.new }
    {
        self.wire.finish();
        self.state.phase = Phase::Draining;
        self.state.has_moved = true;
        self.state.unfinished = 0;
    }

    /// Throws a piece away, which doesn't count.
    fn drain(&mut self, buffer: &mut ReadBuffer)
        ensures same { self.new ≡ record self.old {
          source = self.new.source;
          state = self.new.state;
        } }
        ensures state { StaysOrEnds self.old.state self.new.state }
        ensures caused { HasCauses (causes_of R.halts K.halts S.failures) ⊥ self.old self.new }
    {
        match buffer.receive(&mut self.source) {
            Received::Bytes(_) => {}
            Received::Later => self.state.is_readable = false,
            Received::Ended | Received::Failed => self.state.phase = Phase::Over,
        }
    }
}
