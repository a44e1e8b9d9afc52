//! At which moments rounds are played.
ghost use Rattle.std.specs.Prelude.{◌≡◌, ◌≤◌, ◌<◌, ◌+◌};

use dep_hub::ROUNDS_TO_REPLY;
use dep_moment::Moment;

/// A round that takes so many milliseconds holds up who comes meanwhile.
const LONG: u128 = 20;

/// A long round among so many first ones at a moment holds it, and none behind them.
const MOST_ROUNDS: u32 = 4;

/// The moment of a round, which the next three share where it took long: at most seven rounds in all. What came meanwhile
/// came at that moment, and at a later one it would wait once more: the clock would move first, by a commit that copies
/// a long log into the file.
#[derive(Clone, Copy)]
pub(crate) struct RoundMoment {
    moment: Moment,
    /// How many rounds were played at it.
    rounds: u32,
    /// How many rounds may be played at it.
    last: u32,
}

impl RoundMoment {
    /// Of no round yet.
    pub fn new() -> RoundMoment
        ensures unplayed { result.rounds ≡ 0 }
        ensures unshared { result.last ≡ 0 }
    {
        RoundMoment {
            moment: Moment::new(0),
            rounds: 0,
            last: 0,
        }
    }

    /// Notes how many milliseconds the last round took.
    pub fn note(&mut self, took: u128)
        ensures long { 20 ≤ took → 0 < self.old.rounds → self.old.rounds ≤ 4
            → self.new ≡ record self.old { last = self.old.rounds + 3 } }
        ensures short { took < 20 → self.new ≡ self.old }
        ensures unplayed { self.old.rounds ≡ 0 → self.new ≡ self.old }
        ensures later { 4 < self.old.rounds → self.new ≡ self.old }
    {
        if took >= LONG && 0 < self.rounds && self.rounds <= MOST_ROUNDS {
            self.last = self.rounds + ROUNDS_TO_REPLY;
        }
    }

    /// The moment of the next round, where the clock reads this one now.
    pub fn next(&mut self, now: Moment) -> Moment
        ensures at { result ≡ self.new.moment }
        ensures shared { self.old.rounds < self.old.last
            → self.new ≡ record self.old { rounds = self.old.rounds + 1 } }
        ensures read { self.old.last ≤ self.old.rounds
            → self.new ≡ record { moment = now; rounds = 1; last = 1 } }
    {
        if self.rounds < self.last {
            self.rounds += 1;
        } else {
            *self = RoundMoment {
                moment: now,
                rounds: 1,
                last: 1,
            };
        }
        self.moment
    }
}
