//! Whose contents are sent on in a round.
ghost use Rattle.std.specs.Prelude.{◌≡◌, ◌<◌, ◌^◌, ◌-◌, true};
ghost use Rattle.dep_host.specs.Sharing.{counted, is_turn, most_sent};

/// How many contents are sent on in one round at most. A round may take some 0.5 ms for each.
pub const MOST_SENT: usize = 64;

/// Whose contents are sent on in a round: those at a place and behind it, until so many are. In the next round it
/// goes on behind the last of these, or at the first place where all had their turn.
#[derive(Clone, Copy)]
pub(crate) struct Share {
    /// The place from which contents are sent on in this round.
    first: usize,
    /// The place from which they are in the next one.
    pub(crate) next: usize,
    /// How many more may be in this one.
    left: usize,
}

impl Share {
    /// What a round begins with that sends contents on from a place.
    pub(crate) fn new(first: usize) -> Share
        ensures first { result.first ≡ first }
        ensures next { result.next ≡ 0 }
        ensures left { result.left ≡ most_sent }
    {
        Share {
            first,
            next: 0,
            left: MOST_SENT,
        }
    }

    /// Whether a content that is sent to who is at a place may be sent on.
    pub(crate) fn is_turn(&self, at: usize) -> bool
        ensures { result ≡ is_turn self.now.first self.now.next at }
    {
        at >= self.first && (self.next == 0 || at < self.next)
    }

    /// Takes note of whether a content was sent on at a place.
    pub(crate) fn count(&mut self, at: usize, has_sent: bool)
        requires room { has_sent ≡ true → 0 < self.old.left }
        requires within { at < 2 ^ 64 - 1 }
        ensures { self.new ≡ counted self.old at has_sent }
    {
        if has_sent {
            self.left -= 1;
            if self.left == 0 {
                self.next = at + 1;
            }
        }
    }
}
