//! What follows from how a host goes on, apart from any code.
ghost use Rattle.dep_slot.specs.Causes.{causes_of};
ghost use Rattle.dep_host.specs.Sharing.{TurnsCome};
ghost use Rattle.dep_host.specs.Waiting.{FreesWaiting};
ghost use Rattle.dep_host.specs.Laws.{BeginsNoneAwaited, GoesOnInTurn, SendingEnds, MakesRuns, TakesWhatIsSent, ReadsArrive, SitsApart, SitsOpen, KeepsPromises, TakesNothing, SendsContents};

use dep_hub::Archive;
use dep_hub::laws::{answers_make_a_run, connections_make_a_run, replies_make_a_run};
use dep_outbox::{Sink, Source, Spool};

/// Whatever a host does, it makes a run: behind all records that its hub represented, the hub represents
/// those of what was done, and holds the bytes that were read and not answered, while its store is open.
pub fn hosts_make_a_run<A: Archive, R: Source, K: Sink, S: Spool>()
    ensures { MakesRuns A.condition R.unread K.taken S.held }
{
    answers_make_a_run::<A>();
    connections_make_a_run::<A>();
}

/// Where sockets and spools show their bytes: what the wire of each connection took since it came is what was
/// sent to it, so that what its socket took is a prefix of that.
pub fn wires_take_what_is_sent<A: Archive, R: Source, K: Sink, S: Spool>()
    ensures { TakesWhatIsSent A.condition R.unread K.taken S.held }
{}

/// Of a connection that stays open, what was read has arrived at the machine, in order and joined, but for
/// what is held.
pub fn what_is_read_arrives()
    ensures { ReadsArrive }
{}

/// No connection is at two places, and who is at one was never closed.
pub fn slots_are_apart<A: Archive, R: Source, K: Sink, S: Spool>()
    ensures apart { SitsApart A.condition R.unread K.taken S.held }
    ensures open { SitsOpen A.condition R.unread K.taken S.held }
{}

/// What is still to be sent of a content goes on: who is at a place to whom it is owed is in a phase in which
/// it is sent, unless it is over.
pub fn contents_are_sent<A: Archive, R: Source, K: Sink, S: Spool>()
    ensures { SendsContents A.condition R.unread K.taken S.held }
{}

/// The turn of each place comes, also while contents are sent on to all others: within any 17 rounds of 1,024 places.
pub fn turns_come()
    ensures { TurnsCome }
{}

/// The archive promise, for all connections at once. From a host without connections over a store that
/// represents a state, whatever peers, moments and events come: what was done is a run of the machine,
/// each connection was sent a prefix of its replies to the requests that its bytes spell, behind which the rest
/// is owed, these bytes are a prefix of what its client gave, and the store represents the machine's state, while
/// it is open.
pub fn hosts_keep_the_archive_promise<A: Archive, R: Source, K: Sink, S: Spool>()
    ensures { KeepsPromises A.condition R.unread K.taken S.held }
{
    answers_make_a_run::<A>();
    connections_make_a_run::<A>();
    replies_make_a_run::<A>();
}

/// In a round in which it is its turn a content goes on for which a request waits, and one whose client took all
/// that was sent.
pub fn contents_go_on<A: Archive, R: Source, K: Sink, S: Spool>()
    ensures { GoesOnInTurn A.condition R.unread K.taken S.held S.size
        (causes_of R.halts K.halts S.failures) }
{}

/// A content that is sent in steps ends: each step of it sends some bytes of what is owed, or ends it, so that there
/// are no more of them than bytes are owed.
pub fn sending_ends<A: Archive, R: Source, K: Sink, S: Spool>()
    ensures { SendingEnds A.condition R.unread K.taken S.held }
{
    answers_make_a_run::<A>();
    connections_make_a_run::<A>();
    replies_make_a_run::<A>();
}

/// A request that takes files, and waits, waits for those contents of them alone that are sent when it begins to: while it
/// waits none begins. That each of these goes on in its turn is `contents_go_on`, and that it ends is `sending_ends`.
pub fn no_awaited_content_begins<A: Archive, R: Source, K: Sink, S: Spool>()
    ensures { BeginsNoneAwaited A.condition R.unread K.taken S.held }
{
    replies_make_a_run::<A>();
}

/// A request that takes files has to wait no longer than so many rounds. In each 17 that follow one behind the other each
/// of 1,024 places has its turn. So once they are 17 times as many as bytes were owed to a connection when it began to
/// wait, and 17 more, no content of these files is being sent to that. Once it is so with each connection to which one
/// was being sent then, nothing stands in its way any more.
pub fn waiting_requests_become_free<A: Archive, R: Source, K: Sink, S: Spool>()
    ensures { FreesWaiting A.condition R.unread K.taken S.held S.size
        (causes_of R.halts K.halts S.failures) }
{
    replies_make_a_run::<A>();
}

/// Once a host is shut, as its store is or as it was told to stop, it stays so: it lets nobody in and reads
/// nothing, answers what was read, and closes.
pub fn reported_hosts_take_nothing<A: Archive, R: Source, K: Sink, S: Spool>()
    ensures { TakesNothing A.condition R.unread K.taken S.held }
{}
