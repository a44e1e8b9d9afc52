//! What follows for the runs of a hub that is offered pieces and answers one item at a time, apart from any code.
ghost use Rattle.std.specs.Prelude.{◌≡◌, ℕ, List, []};
ghost use Rattle.dep_exchange.specs.Records.{Connect, Close, Absent, Live, World};
ghost use Rattle.dep_hub.specs.Representing.{RepresentsAt};
ghost use Rattle.dep_hub.specs.Holding.{RepresentsHolding, AnswersAdd, AnswersStop, LineAdds, StopsAnswered, with_held};
ghost use Rattle.dep_hub.specs.RepresentsOwing.{AnswersAtOnce, AwaitsContent, AwaitsTaker, ContentsStay, RepliesAdd, RepliesKeep, SendingRepresents, WaitingRepresents};
ghost use Rattle.dep_hub.specs.WorkingAhead.{AheadContents, AheadEnds, AheadRepresents, AheadTakesTurns, PreparesOnce};
ghost use Rattle.dep_hub.specs.declared.hub.Hub.{Hub as AnyHub};

use dep_exchange::Archive;

/// A hub stands at a world just where it stands there and holds nothing.
pub fn nothing_held<A: Archive>()
    ensures holds { (hub : AnyHub A) (w : World) → RepresentsAt A.condition hub w
        → RepresentsHolding A.condition hub w (λ n. []) }
    ensures represents { (hub : AnyHub A) (w : World) (held : ℕ → List ℕ) → ((n : ℕ) → held n ≡ [])
        → RepresentsHolding A.condition hub w held → RepresentsAt A.condition hub w }
{}

/// Answering the next item, and a piece that is refused for lack of memory, is a run's next record:
/// an arrival of a part of what was held. A stop at its end leaves what a run allows.
pub fn answers_make_a_run<A: Archive>()
    ensures adds { (old new : AnyHub A) → AnswersAdd A.condition old new }
    ensures stops { (old new : AnyHub A) → AnswersStop A.condition old new }
{}

/// Opening and closing a connection, with the store as it was, is a run's next record.
pub fn connections_make_a_run<A: Archive>()
    ensures connects { (old new : AnyHub A) (n : ℕ)
        → LineAdds A.condition old new (Connect n) n (Live []) (λ held. held) }
    ensures closes { (old new : AnyHub A) (n : ℕ)
        → LineAdds A.condition old new (Close n) n Absent (with_held n []) }
{}

/// What is held at a stop never arrives: the stop leaves what was answered.
pub fn stops_leave_what_was_answered<A: Archive>()
    ensures { (hub : AnyHub A) → StopsAnswered A.condition hub }
{}

/// Where an item is answered that leaves the contents as they are that other connections are being sent, what is owed
/// to these is owed still.
pub fn replies_keep_what_is_owed<A: Archive>()
    ensures { (old new : AnyHub A) → RepliesKeep A.condition old new }
{}

/// Answering the next item in steps is a run's next record, with the whole reply.
pub fn replies_make_a_run<A: Archive>()
    ensures { (old new : AnyHub A) → RepliesAdd A.condition old new }
{}

/// Sending on what is owed of a reply is no event of a run: the records stay, and less is owed.
pub fn sending_is_no_event<A: Archive>()
    ensures { (old new : AnyHub A) → SendingRepresents A.condition old new }
{}

/// Keeping a request back is no event of a run: what is owed stays, and what is being sent.
pub fn waiting_is_no_event<A: Archive>()
    ensures represents { (old new : AnyHub A) → WaitingRepresents A.condition old new }
    ensures contents { (old new : AnyHub A) → ContentsStay A.condition old new }
{}

/// Working ahead is no event of a run: what is owed stays, and what is being sent.
pub fn working_ahead_is_no_event<A: Archive>()
    ensures represents { (old new : AnyHub A) → AheadRepresents A.condition old new }
    ensures contents { (old new : AnyHub A) → AheadContents A.condition old new }
{}

/// While a request is kept back as it is prepared, each time of working ahead leaves fewer steps, of all that there are for
/// the connections. A step more comes by a request alone that wasn't looked at before. And for each a step is made in its turn,
/// which comes nearer each time, however many begin to be prepared later. So each is answered in the end.
pub fn what_is_prepared_ends<A: Archive>()
    ensures fewer { (old new : AnyHub A) → AheadEnds A.condition old new }
    ensures turns { (old new : AnyHub A) → AheadTakesTurns A.condition old new }
    ensures once { (old new : AnyHub A) → PreparesOnce A.condition old new }
{}

/// A request that puts or deletes files is kept back while a content of these is being sent, which is awaited then; a
/// GET while such a request waits. So what is waited for is in the end a content that is being sent, and each step
/// makes that shorter. Where there is nothing of the kind the next item is answered, unless a content was broken off, it
/// is prepared first, or memory ran out as it was looked at for the first time.
pub fn what_is_waited_for_ends<A: Archive>()
    ensures content { (old new : AnyHub A) → AwaitsContent A.condition old new }
    ensures taker { (old new : AnyHub A) → AwaitsTaker A.condition old new }
    ensures at_once { (old new : AnyHub A) → AnswersAtOnce A.condition old new }
{}
