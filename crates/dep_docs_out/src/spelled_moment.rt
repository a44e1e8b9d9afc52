//! A moment with its text.
ghost use Rattle.std.specs.Prelude.{◌≡◌};
ghost use Rattle.dep_moment.specs.Civil.{rfc3339_text};

use dep_moment::Moment;
use std::marker::Model;

/// A moment with the text of its day and time of day in UTC (RFC 3339). Contracts see the moment.
#[derive(Clone, Copy)]
pub(crate) struct SpelledMoment {
    moment: Moment,
    text: [u8; 20],
}

impl Model for SpelledMoment {
    ghost use Rattle.std.specs.Prelude.{◌≡◌, ℕ, IsAscii};
    ghost use Rattle.dep_moment.specs.Civil.{rfc3339_text};

    ghost Value = { ℕ };

    ghost view = { λ m. m.moment };

    ghost invariant = { λ m. (m.text ≡ rfc3339_text m.moment) × IsAscii m.text };

    ghost inverse = { λ secs. record { moment = secs; text = rfc3339_text secs } };
}

impl SpelledMoment {
    /// Spells a moment behind another, whose text is taken over where it is the same moment.
    pub(crate) fn behind(last: Option<SpelledMoment>, moment: Moment) -> SpelledMoment
        ensures { result ≡ moment }
    {
        match last {
            Some(last) if last.moment == moment => last,
            _ => SpelledMoment {
                moment,
                text: moment.rfc3339(),
            },
        }
    }

    /// Its text.
    pub(crate) fn as_str(&self) -> &str
        ensures { result.now ≡ rfc3339_text self.now }
    {
        let Ok(text) = str::from_utf8(&self.text) else {
            unreachable!();
        };
        text
    }
}
