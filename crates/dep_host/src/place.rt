//! Who is at a place of a host, if anybody is.
ghost use Rattle.std.specs.Prelude.{◌≡◌, IsSomeAnd, true, false};
ghost use Rattle.dep_slot.specs.declared.connection_state.Phase.TheVariants.{Open};
ghost use Rattle.dep_host.specs.Actions.{unfinished_of};

use dep_outbox::{Sink, Source, Spool};
use dep_slot::Slot;

/// How many bytes of unfinished requests are kept for who is at a place.
pub(crate) fn unfinished<R: Source, K: Sink, S: Spool>(place: &Option<Slot<R, K, S>>) -> u64
    ensures { result ≡ unfinished_of place.now }
{
    match place {
        Some(slot) => slot.unfinished(),
        None => 0,
    }
}

/// Whether who is at a place is read, and none of its requests may be complete.
pub(crate) fn is_read<R: Source, K: Sink, S: Spool>(place: &Option<Slot<R, K, S>>) -> bool
    ensures read { result ≡ true → IsSomeAnd place.now (λ slot. slot.state.phase ≡ Open) }
    ensures unread { result ≡ false
        → IsSomeAnd place.now (λ slot. slot.state.phase ≡ Open) → ⊥ }
{
    match place {
        Some(slot) => slot.is_read(),
        None => false,
    }
}
