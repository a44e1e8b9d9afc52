//! An archive, as those who serve it see it.

ghost use Rattle.std.specs.Prelude.{◌≡◌, Bool, IsTrue, IfOk, IfErr};
ghost use Rattle.dep_types.specs.State.{State};
ghost use Rattle.dep_fields.specs.Fit.{AreFit};
ghost use Rattle.dep_answers.specs.Steps.{operation_step};
ghost use Rattle.dep_types.specs.Conditions.{Condition, Represents, HasCleanDisk, Leaves};
ghost use Rattle.dep_exchange.specs.Shut.{ReportsOpen};
ghost use Rattle.dep_exchange.specs.ArchiveCalls.{CallLog, Asked, WorkedAhead, Runs, FailsToReport};
ghost use Rattle.dep_exchange.specs.Archives.{Ticks, MakesStep, Streams, KeepsState, KeepsAll, KeepsEachState, CommitsIfDue, FallsDue, FailsIfShut, CountsFailures};
ghost use Rattle.dep_exchange.specs.Owing.{Begins, StreamsOn, TakesFew};

use crate::rest::Rest;
use dep_answers::{Performed, Service, StoredFile};
use dep_decisions::Operation;
use dep_moment::Moment;
use dep_types::{Config, Outlet, StoreFault, StreamFault};

/// A client that waited through a long round of all connections, and whose request has come whole, is answered in the third
/// round behind it at the latest: in one its last exchange ends, or it is let in, in the next its request is read, and in
/// the third it is answered.
pub const ROUNDS_TO_REPLY: u32 = 3;

/// An archive that keeps a state of the machine, and does what one step after another asks of it.
pub trait Archive {
    /// How it stands.
    ghost condition: { Self → Condition };

    /// What it shows of what it is asked for beside the steps.
    ghost call_log: { Self → CallLog };

    /// Whether a commit by `work_ahead` is due.
    ghost may_commit: { Self → Bool };

    /// Moves the clock to the moment, and never back, and ends the uploads that were left idle. It returns
    /// the clock.
    fn tick(&mut self, config: &Config, moment: Moment) -> Result<Moment, StoreFault>
        ensures does { Ticks (condition self.old) (condition self.new) config.now moment result }
        ensures commits { may_commit self.new ≡ may_commit self.old }
        ensures shut { FailsIfShut (condition self.old) (condition self.new) result };

    /// Does what a request asks for, once the clock has gone on, all of it or nothing. The reply is
    /// made before it is kept, so an `Err` changes nothing.
    fn perform(
        &mut self,
        service: &Service,
        operation: &Operation<'_>,
    ) -> Result<Performed, StoreFault>
        ensures does { MakesStep (condition self.old) (condition self.new)
            (λ s. AreFit operation.now.fields)
            (λ s. operation_step service.now s operation.now) result }
        // A commit by work ahead falls due behind an accepted change alone.
        ensures commits { FallsDue (may_commit self.old) (may_commit self.new)
            operation.now result }
        ensures shut { FailsIfShut (condition self.old) (condition self.new) result };

    /// Sends the content of the file of this number, one block at a time.
    fn stream<O: Outlet>(&mut self, file: u64, out: &mut O) -> Result<(), StreamFault>
        ensures streams { Streams (condition self.old) (condition self.new)
            (O.taken out.old) (O.taken out.new) file result }
        ensures does { KeepsState (condition self.old) (condition self.new) result }
        ensures commits { may_commit self.new ≡ may_commit self.old }
        ensures shut { FailsIfShut (condition self.old) (condition self.new) result }
        ensures count { CountsFailures (O.failures out.old) (O.failures out.new) result };

    /// Finds that the file is there, so that its content can be sent by `stream_on`. A file that isn't there is a
    /// fault of the store.
    fn begin(&mut self, it: StoredFile) -> Result<(), StoreFault>
        ensures begins { Begins (condition self.new) it result }
        ensures does { KeepsState (condition self.old) (condition self.new) result }
        ensures commits { may_commit self.new ≡ may_commit self.old }
        ensures shut { FailsIfShut (condition self.old) (condition self.new) result };

    /// Sends a few blocks of what is left of a content. It returns how many of its bytes are sent then, or `None` where
    /// all are.
    fn stream_on<O: Outlet>(&mut self, rest: Rest, out: &mut O) -> Result<Option<u64>, StreamFault>
        ensures streams { StreamsOn (condition self.old) (condition self.new)
            (O.taken out.old) (O.taken out.new) rest.file rest.sent result }
        // Others wait for no more than that.
        ensures few { TakesFew (O.taken out.old) (O.taken out.new) }
        ensures does { KeepsState (condition self.old) (condition self.new) result }
        ensures commits { may_commit self.new ≡ may_commit self.old }
        ensures shut { FailsIfShut (condition self.old) (condition self.new) result }
        ensures count { CountsFailures (O.failures out.old) (O.failures out.new) result };

    /// Whether it is open, as far as that can be known: `false` where a fault has shut it, for good. Before
    /// that is known memory may run out, or the disk fail once more: ask again then.
    fn is_open(&mut self) -> Result<bool, StoreFault>
        ensures reported { IfOk result (ReportsOpen (condition self.new)) }
        ensures cause { HasCleanDisk (condition self.new)
            → IfErr result (FailsToReport (call_log self.old) (call_log self.new)) }
        ensures asked { Runs (Asked result) (call_log self.old) (call_log self.new) }
        ensures commits { may_commit self.new ≡ may_commit self.old }
        ensures rests { KeepsAll (condition self.old) (condition self.new) };

    /// Does a bounded part of the work that a later request would have to wait for, and returns whether more is left. With
    /// a request that waits, it does a bounded part of what its answer needs, and returns whether more of that is left. It
    /// changes nothing that is kept, but a fault may shut it, which `is_open` returns. It may commit what is kept once
    /// more, as a long log is copied by the next commit: once behind an accepted change, and not behind what only reads,
    /// is refused or fails. What it returns is about time alone, and noted among what it was asked for.
    fn work_ahead(&mut self, service: &Service, next: Option<&Operation<'_>>) -> bool
        ensures asked { Runs (WorkedAhead result) (call_log self.old) (call_log self.new) }
        ensures commits { CommitsIfDue (may_commit self.old) (may_commit self.new)
            (condition self.old) (condition self.new) }
        ensures rests { KeepsEachState (condition self.old) (condition self.new) };

    // An open archive has an honest disk.
    ghost honest_if_open: { (a : Self) → IsTrue (condition a).is_open
        → HasCleanDisk (condition a) };

    // While it represents a state, a crash leaves that state.
    ghost settled: { (a : Self) (s : State) → Represents (condition a) s
        → Leaves (condition a) (λ left. left ≡ s) };
}
