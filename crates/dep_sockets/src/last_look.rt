//! When the system was asked last which sockets are ready.
ghost use Rattle.std.specs.Prelude.{◌≡◌, ◌<◌, ◌+◌, ◌-◌, true, false};

/// For so many microseconds a look serves.
const MOST_MICROSECONDS: u128 = 1_000;

/// For so many rounds a look serves, whatever the clock reads.
const MOST_ROUNDS: u32 = 64;

/// When the system was asked last which sockets are ready, and how many rounds may do without asking it
/// again: a client that is ready meanwhile waits until then.
#[derive(Clone, Copy)]
pub(crate) struct LastLook {
    /// How many microseconds after the start.
    at: u128,
    /// How many more rounds it serves.
    rounds: u32,
}

impl LastLook {
    /// No look yet.
    pub fn new() -> LastLook
        ensures unasked { result ≡ record { at = 0; rounds = 0 } }
    {
        LastLook { at: 0, rounds: 0 }
    }

    /// A look, so many microseconds after the start.
    pub fn at(at: u128) -> LastLook
        ensures { result ≡ record { at = at; rounds = 64 } }
    {
        LastLook {
            at,
            rounds: MOST_ROUNDS,
        }
    }

    /// Returns whether the look serves one more round, so many microseconds after the start, which is
    /// then counted.
    pub fn serves(&mut self, now: u128) -> bool
        ensures counted { result ≡ true → self.old.rounds ≡ self.new.rounds + 1 }
        ensures fresh { result ≡ true → now < self.old.at + 1000 }
        ensures same { self.new.at ≡ self.old.at }
        ensures spent { result ≡ false → self.new ≡ self.old }
        ensures serves { result ≡ false → now < self.old.at + 1000 → self.old.rounds ≡ 0 }
    {
        if self.rounds == 0 || now.saturating_sub(self.at) >= MOST_MICROSECONDS {
            return false;
        }
        self.rounds -= 1;
        true
    }
}
