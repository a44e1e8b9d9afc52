//! When rounds begin, by the clocks of the system.

use crate::last_look::LastLook;
use crate::round_moment::RoundMoment;
use dep_host::Time;
use dep_program::moment_of;
use std::time::{Clock, Duration, Instant, SystemTime};

/// When rounds begin, and when the system was asked which sockets are ready.
#[derive(Drop)]
pub(crate) struct RoundClock<'a, R> {
    rt: &'a R,
    start: Instant,
    /// How long after the start the last round began.
    begun: Duration,
    /// When the system was asked last which sockets are ready.
    look: LastLook,
    moment: RoundMoment,
}

impl<'a, R: Clock> RoundClock<'a, R> {
    /// A clock of no round yet.
    pub fn new(rt: &'a R, start: Instant) -> RoundClock<'a, R> {
        RoundClock {
            rt,
            start,
            begun: Duration::from_secs(0),
            look: LastLook::new(),
            moment: RoundMoment::new(),
        }
    }

    /// How long after the start it is, which never goes back.
    pub fn elapsed(&self) -> Duration {
        match self.start.elapsed(self.rt) {
            Ok(elapsed) => elapsed.max(self.begun),
            Err(_) => self.begun,
        }
    }

    /// Notes how long the last round took, and returns whether the last look serves the next one, where something is to
    /// be done.
    pub fn serves_next(&mut self, is_busy: bool) -> bool {
        let elapsed = self.elapsed();
        let took = elapsed.saturating_sub(self.begun);
        self.moment.note(took.as_millis());
        is_busy && self.look.serves(elapsed.as_micros())
    }

    /// Notes that the system was asked which sockets are ready.
    pub fn note_look(&mut self) {
        self.look = LastLook::at(self.elapsed().as_micros());
    }

    /// Begins a round, and returns the time, of which neither part goes by the other.
    pub fn begin_round(&mut self) -> Time {
        self.begun = self.elapsed();
        let now = moment_of(SystemTime::now(self.rt));
        Time {
            moment: self.moment.next(now),
            second: self.begun.as_secs(),
        }
    }
}
