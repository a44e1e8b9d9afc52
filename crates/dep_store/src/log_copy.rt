//! When the log of a store is copied into its file.

ghost use Rattle.std.specs.Prelude.{◌≡◌, ◌↔◌, ◌&&◌, if◌then◌else◌, is_some, not, IsTrue};
ghost use Rattle.dep_store.specs.LogCopies.{writes_much, after_call};

use dep_answers::Performed;
use dep_decisions::Operation;
use dep_exchange::ROUNDS_TO_REPLY;
use dep_fields::is_by_reference;

/// A content of so many octets makes the log long: it fills 1,024 of its pages, and a log of 1,000 is copied.
const LONG_CONTENT: usize = 4_194_304;

/// When the log is to be copied, counted in calls that work ahead.
#[derive(Clone, Copy)]
pub(crate) enum LogCopy {
    /// No request has made it long since it was copied.
    NotDue,
    /// Once so many further calls were made.
    DueAfter(u32),
}

/// Whether the request writes much, or may: a deposit by reference moves as many bytes as its segments have.
fn writes_much(operation: &Operation<'_>) -> bool
    ensures { result ≡ writes_much operation.now }
{
    !operation.target.method.is_safe()
        && (operation.content.as_slice().len() >= LONG_CONTENT
            || is_by_reference(&operation.fields.disposition))
}

impl LogCopy {
    ghost use Rattle.dep_store.specs.declared.log_copy.LogCopy.TheVariants.{DueAfter};

    /// Notes a request that was answered so. One that was refused has written next to nothing. Who waited through it is
    /// answered first, in the calls that are left out.
    pub fn note(&mut self, operation: &Operation<'_>, performed: &Performed)
        ensures { self.new ≡ (if writes_much operation.now && not (is_some performed.now.refusal)
            then DueAfter 3 else self.old) }
    {
        if writes_much(operation) && performed.refusal.is_none() {
            *self = LogCopy::DueAfter(ROUNDS_TO_REPLY);
        }
    }

    /// Counts a call. Returns whether the log is to be copied in it.
    pub fn count(&mut self) -> bool
        ensures due { IsTrue result ↔ (self.old ≡ DueAfter 0) }
        ensures counted { self.new ≡ after_call self.old }
    {
        match *self {
            LogCopy::NotDue => false,
            LogCopy::DueAfter(0) => {
                *self = LogCopy::NotDue;
                true
            }
            LogCopy::DueAfter(calls) => {
                *self = LogCopy::DueAfter(calls - 1);
                false
            }
        }
    }
}
