//! How far a connection is, and what it does next.
ghost use Rattle.std.specs.Prelude.{◌≡◌, ◌≢◌, ◌+◌, ◌^◌, ◌-◌, ◌||◌, nat_lt, min, if◌then◌else◌, true, false};
ghost use Rattle.dep_slot.specs.ConnectionStates.{next_action, closing, counts_anew, is_ended, is_under_way, is_sending, phase_begun};
ghost use Rattle.dep_slot.specs.Slots.{left_unfinished, phase_answered, phase_offered, phase_sent};

use crate::limits::Limits;
use crate::log::Closing;
use dep_hub::{Arrived, Next, SentOn};

/// How far a connection is.
#[derive(Clone, Copy, PartialEq, Eq)]
pub enum Phase {
    /// No request is complete of what was read, and more is read.
    Open,
    /// A request may be complete of what was read, and is answered before more is read.
    Answering,
    /// The content of a file is sent behind the last reply, before a further request is answered.
    Sending,
    /// It isn't read any more, and the content of a file is sent behind the last reply.
    SendingLast,
    /// It isn't read any more, and what is owed is sent.
    Last,
    /// All was sent, and what the client still sends is thrown away, so that it isn't cut off from the
    /// last reply.
    Draining,
    /// It is to be closed.
    Over,
}

impl Phase {
    /// Whether a content is sent behind the last reply.
    pub fn is_sending(self) -> bool
        ensures { result ≡ is_sending self }
    {
        matches!(self, Phase::Sending | Phase::SendingLast)
    }
}

/// What a connection does next.
#[derive(Clone, Copy)]
pub enum NextAction {
    /// What is owed is sent, as far as the socket takes it.
    Flush,
    /// The next request is answered, if it is complete.
    Answer,
    /// A few blocks more of a content are sent.
    Send,
    /// A piece is read.
    Read,
    /// The sending half of the socket is shut down, so that the client sees that nothing more is sent.
    Finish,
    /// A piece is read, and thrown away.
    Drain,
    /// Nothing, until the socket is ready or the time is up.
    Wait,
}

/// How far a connection is, whether its socket is ready, since when it is silent, and how many bytes
/// moved in a time.
#[derive(Clone, Copy)]
pub struct ConnectionState {
    pub phase: Phase,
    /// Whether the socket may have something to read.
    pub is_readable: bool,
    /// Whether the socket may take something.
    pub is_writable: bool,
    /// Whether a request of another connection waited for the content that is sent to this one, as its last
    /// turn began. Then the content is sent on in its turn, whatever the socket takes.
    pub is_awaited: bool,
    /// Whether its next request was kept back in its last turn, for what is sent to others or until its uploads are
    /// hashed, or its content put off, as it was the turn of others.
    pub is_kept_back: bool,
    /// Whether something was read, answered or taken, or a request kept back, since its last turn began.
    pub has_moved: bool,
    /// The second of its first turn after something was read, answered or taken, or a request kept back.
    pub since: u64,
    /// Whether a request or a reply was under way when its last turn began.
    pub is_due: bool,
    /// The second since which bytes are counted.
    pub mark: u64,
    /// How many bytes were read or taken since then, up to 2^64 - 1.
    pub moved: u64,
    /// How many bytes were read since an item was answered last, up to 2^64 - 1.
    pub unfinished: u64,
}

impl ConnectionState {
    /// A fresh connection, whose socket may be ready.
    pub fn new() -> ConnectionState
        ensures phase { result.phase ≡ Phase.Open }
        ensures readable { result.is_readable ≡ true }
        ensures writable { result.is_writable ≡ true }
        ensures moved { result.has_moved ≡ true }
        ensures due { result.is_due ≡ false }
        ensures unfinished { result.unfinished ≡ 0 }
    {
        ConnectionState {
            phase: Phase::Open,
            is_readable: true,
            is_writable: true,
            is_awaited: false,
            is_kept_back: false,
            has_moved: true,
            since: 0,
            is_due: false,
            mark: 0,
            moved: 0,
            unfinished: 0,
        }
    }

    /// What it does next, where it owes bytes or not.
    pub fn next_action(&self, owes: bool) -> NextAction
        ensures { result ≡ next_action self.now.phase self.now.is_awaited owes self.now.is_readable
            self.now.is_writable }
    {
        match self.phase {
            Phase::Over => NextAction::Wait,
            Phase::Sending | Phase::SendingLast if self.is_awaited => NextAction::Send,
            Phase::Open
            | Phase::Answering
            | Phase::Sending
            | Phase::SendingLast
            | Phase::Last
            | Phase::Draining
                if owes => {
                if self.is_writable {
                    NextAction::Flush
                } else {
                    NextAction::Wait
                }
            }
            Phase::Answering => NextAction::Answer,
            Phase::Sending | Phase::SendingLast => NextAction::Send,
            Phase::Open => if self.is_readable {
                NextAction::Read
            } else {
                NextAction::Wait
            },
            Phase::Last => NextAction::Finish,
            Phase::Draining => if self.is_readable {
                NextAction::Drain
            } else {
                NextAction::Wait
            },
        }
    }

    /// Begins a turn: takes note of when something moved last, and counts bytes anew where nothing is
    /// under way, a request was kept back, or enough moved in an idle time. What moved in the last turn counts
    /// from here on for silence, since a turn may take long, and its client is told of the end first.
    pub fn begin_turn(&mut self, owes: bool, second: u64, limits: &Limits)
        ensures phase { self.new.phase ≡ self.old.phase }
        ensures readable { self.new.is_readable ≡ self.old.is_readable }
        ensures writable { self.new.is_writable ≡ self.old.is_writable }
        ensures moved { self.new.has_moved ≡ false }
        ensures since { self.new.since
            ≡ (if self.old.has_moved then second else self.old.since) }
        ensures due { self.new.is_due ≡ is_under_way self.old owes }
        ensures mark { self.new.mark
            ≡ (if counts_anew self.old owes second limits.now then second else self.old.mark) }
        ensures bytes { self.new.moved
            ≡ (if counts_anew self.old owes second limits.now then 0 else self.old.moved) }
        ensures unfinished { self.new.unfinished ≡ self.old.unfinished }
        ensures kept_back { self.new.is_kept_back ≡ false }
        ensures awaited { self.new.is_awaited ≡ self.old.is_awaited }
    {
        if self.has_moved {
            self.since = second;
            self.has_moved = false;
        }
        let is_any = owes || self.unfinished > 0 || self.phase.is_sending();
        self.is_due = is_any && !self.is_kept_back;
        self.is_kept_back = false;
        let is_enough = limits.is_past(self.mark, second) && self.moved >= limits.least_rate;
        if !self.is_due || is_enough {
            self.mark = second;
            self.moved = 0;
        }
    }

    /// Takes note that its next request was kept back, or its content put off, so that it isn't closed for that.
    pub fn keep_back(&mut self)
        ensures { self.new ≡ record self.old { has_moved = true; is_kept_back = true } }
    {
        self.has_moved = true;
        self.is_kept_back = true;
    }

    /// Takes note that so many bytes were read or taken.
    pub fn count(&mut self, bytes: u64)
        ensures { self.new ≡ record self.old {
          has_moved = self.old.has_moved || nat_lt 0 bytes;
          moved = min (self.old.moved + bytes) (2 ^ 64 - 1);
        } }
    {
        if bytes > 0 {
            self.has_moved = true;
        }
        self.moved = self.moved.saturating_add(bytes);
    }

    /// Takes note of a piece of so many bytes, which was offered.
    pub fn note_piece(&mut self, bytes: u64, arrived: Arrived)
        ensures { self.new ≡ record self.old {
          phase = phase_offered arrived;
          has_moved = self.old.has_moved || nat_lt 0 bytes;
          moved = min (self.old.moved + bytes) (2 ^ 64 - 1);
          unfinished = min (self.old.unfinished + bytes) (2 ^ 64 - 1);
        } }
    {
        self.count(bytes);
        self.unfinished = self.unfinished.saturating_add(bytes);
        self.phase = phase_offered(arrived);
    }

    /// Takes note that its next item was answered, behind whose reply a content is sent or not.
    pub fn note_answer(&mut self, next: Next, is_sending: bool)
        ensures { self.new ≡ record self.old {
          phase = phase_answered next is_sending;
          has_moved = true;
          unfinished = left_unfinished next self.old.unfinished;
        } }
    {
        self.phase = phase_answered(next, is_sending);
        self.has_moved = true;
        if next != Next::Waiting {
            self.unfinished = 0;
        }
    }

    /// Takes note of what sending a few blocks more of a content came to.
    pub fn note_sent(&mut self, sent_on: SentOn)
        ensures { self.new ≡ record self.old { phase = phase_sent self.old.phase sent_on } }
    {
        self.phase = phase_sent(self.phase, sent_on);
    }

    /// Why it is closed now, if it is: it is over, was silent for too long, or its client is too slow.
    pub fn closing(&self, second: u64, limits: &Limits) -> Option<Closing>
        ensures { result ≡ closing self.now second limits.now }
    {
        if self.phase == Phase::Over {
            Some(Closing::Over)
        } else if self.has_moved {
            None
        } else if limits.is_past(self.since, second) {
            Some(Closing::Silent)
        } else if self.is_due
            && limits.is_past(self.mark, second)
            && self.moved < limits.least_rate
        {
            Some(Closing::Slow)
        } else {
            None
        }
    }
}

/// How far a connection is once its turn begins. Once the host is shut it is read no more.
pub(crate) fn phase_begun(phase: Phase, is_shut: bool) -> Phase
    ensures begun { result ≡ phase_begun phase is_shut }
    ensures opens { result ≡ Phase.Open → phase ≡ Phase.Open }
    ensures ended { is_ended phase ≡ true → is_ended result ≡ true }
    ensures shut { is_shut ≡ true → result ≢ Phase.Open }
{
    if is_shut && phase == Phase::Open {
        Phase::Last
    } else {
        phase
    }
}

/// How far a connection is once a piece of it was offered.
fn phase_offered(arrived: Arrived) -> Phase
    ensures { result ≡ phase_offered arrived }
{
    match arrived {
        Arrived::Open => Phase::Answering,
        Arrived::Closed | Arrived::Cut => Phase::Last,
        Arrived::NoSuch => Phase::Over,
    }
}

/// How far a connection is once its next item was answered, behind whose reply a content is sent or not.
fn phase_answered(next: Next, is_sending: bool) -> Phase
    ensures { result ≡ phase_answered next is_sending }
{
    match next {
        Next::More | Next::Waiting if is_sending => Phase::Sending,
        Next::Closed | Next::Cut if is_sending => Phase::SendingLast,
        Next::More => Phase::Answering,
        Next::Waiting => Phase::Open,
        Next::Closed | Next::Cut => Phase::Last,
        Next::NoSuch => Phase::Over,
    }
}

/// How far a connection is once a few blocks more were sent to it.
fn phase_sent(phase: Phase, sent_on: SentOn) -> Phase
    ensures { result ≡ phase_sent phase sent_on }
{
    match sent_on {
        SentOn::Part => phase,
        SentOn::All if phase == Phase::Sending => Phase::Answering,
        SentOn::All | SentOn::Broken => Phase::Last,
    }
}
