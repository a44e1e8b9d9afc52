//! An archive that gives up its reserve where a step fails.

ghost use Rattle.std.specs.Prelude.{◌≡◌, ◌≢◌, Err, IsTrue, false, is_some};
ghost use Rattle.dep_types.specs.declared.store_fault.StoreFault.TheVariants.{Store};
ghost use Rattle.dep_fields.specs.Fit.{AreFit};
ghost use Rattle.dep_answers.specs.Steps.{operation_step};
ghost use Rattle.dep_exchange.specs.Archives.{Ticks, MakesStep, FallsDue, FailsIfShut, KeepsState, CountsFailures};
ghost use Rattle.dep_exchange.specs.Owing.{Begins, StreamsOn, TakesFew};
ghost use Rattle.dep_commands.specs.Reserving.{brings_content, is_low, turns_away};

use crate::reserve::Reserve;
use dep_answers::{Performed, Service, StoredFile};
use dep_decisions::Operation;
use dep_exchange::{Archive, Rest};
use dep_moment::Moment;
use dep_types::{Config, Method, Outlet, StoreFault, StreamFault};

/// An archive with a reserve, if it has one. Where a step fails by a fault of the store, as a commit does for want of room, the
/// reserve is given up, and until it stands again what brings a content is rejected by the same fault. All else is served.
#[derive(Drop)]
pub struct ReservedArchive<A, R> {
    archive: A,
    reserve: Option<R>,
    /// The second of the last tick.
    second: u64,
}

impl<A: Archive, R: Reserve + Drop> ReservedArchive<A, R> {
    /// The archive with this reserve, which is taken now, or without one. Where it can't be taken, the archive is low from the
    /// start.
    pub fn new(archive: A, reserve: Option<R>) -> ReservedArchive<A, R>
        ensures archive { result.archive ≡ archive }
        ensures reserve { is_some result.reserve ≡ is_some reserve }
    {
        let mut its = ReservedArchive {
            archive,
            reserve,
            second: 0,
        };
        its.restore();
        its
    }

    /// Hands back the archive. The reserve is let go as it is.
    pub fn into_archive(self) -> A
        ensures { result ≡ self.archive }
    {
        let ReservedArchive {
            archive,
            reserve,
            second: _,
        } = self;
        drop(reserve);
        archive
    }

    /// Whether its reserve was given up, and does not stand again yet.
    pub fn is_low(&self) -> bool
        ensures { result ≡ is_low R.is_standing self.now.reserve }
    {
        match &self.reserve {
            Some(reserve) => !reserve.is_intact(),
            None => false,
        }
    }

    /// Whether the request is rejected: it brings a content, and the reserve was given up.
    pub fn turns_away(&self, operation: &Operation<'_>) -> bool
        ensures { result ≡ turns_away R.is_standing self.now.reserve operation.now }
    {
        self.is_low() && brings_content(operation)
    }

    fn give_up(&mut self)
        ensures archive { self.new.archive ≡ self.old.archive }
        ensures given_up { is_low R.is_standing self.new.reserve ≡ is_some self.old.reserve }
        ensures there { is_some self.new.reserve ≡ is_some self.old.reserve }
        ensures second { self.new.second ≡ self.old.second }
    {
        if let Some(reserve) = &mut self.reserve {
            if reserve.is_intact() {
                reserve.give_up();
            }
        }
    }

    fn restore(&mut self)
        ensures archive { self.new.archive ≡ self.old.archive }
        ensures there { is_some self.new.reserve ≡ is_some self.old.reserve }
        ensures standing { is_low R.is_standing self.old.reserve ≡ false
            → self.new.reserve ≡ self.old.reserve }
        ensures second { self.new.second ≡ self.old.second }
    {
        if let Some(reserve) = &mut self.reserve {
            if !reserve.is_intact() {
                reserve.restore();
            }
        }
    }
}

/// Whether the request brings a content that is kept if it is accepted: a GET, a HEAD and a DELETE ignore theirs.
fn brings_content(operation: &Operation<'_>) -> bool
    ensures { result ≡ brings_content operation.now }
{
    matches!(operation.target.method, Method::Post | Method::Put)
        && operation.content.as_slice().len() > 0
}

impl<A: Archive, R: Reserve + Drop> Archive for ReservedArchive<A, R> {
    ghost condition = { λ its. A.condition its.archive };

    ghost call_log = { λ its. A.call_log its.archive };

    ghost may_commit = { λ its. A.may_commit its.archive };

    // The clock is written before the reserve is taken anew, at most once in each second.
    fn tick(&mut self, config: &Config, moment: Moment) -> Result<Moment, StoreFault>
        ensures does { Ticks (A.condition self.old.archive) (A.condition self.new.archive)
            config.now moment result }
        ensures commits { A.may_commit self.new.archive ≡ A.may_commit self.old.archive }
        ensures shut { FailsIfShut (A.condition self.old.archive) (A.condition self.new.archive)
            result }
        // With a reserve it is low once the store has failed. Else the reserve stays as it was, but that one which is given up
        // may be taken anew, once in a second.
        ensures given_up { result ≡ Err Store
            → is_low R.is_standing self.new.reserve ≡ is_some self.old.reserve }
        ensures there { is_some self.new.reserve ≡ is_some self.old.reserve }
        ensures seldom { self.old.second ≡ moment
            → result ≢ Err Store → self.new.reserve ≡ self.old.reserve }
        ensures standing { is_low R.is_standing self.old.reserve ≡ false
            → result ≢ Err Store → self.new.reserve ≡ self.old.reserve }
        ensures second { self.new.second ≡ moment }
    {
        let second = moment.secs();
        let is_new = second != self.second;
        self.second = second;
        let ticked = self.archive.tick(config, moment);
        match ticked {
            Ok(_) if is_new => self.restore(),
            Err(StoreFault::Store) => self.give_up(),
            _ => {}
        }
        ticked
    }

    fn perform(
        &mut self,
        service: &Service,
        operation: &Operation<'_>,
    ) -> Result<Performed, StoreFault>
        ensures does { MakesStep (A.condition self.old.archive) (A.condition self.new.archive)
            (λ s. AreFit operation.now.fields)
            (λ s. operation_step service.now s operation.now) result }
        ensures commits { FallsDue (A.may_commit self.old.archive) (A.may_commit self.new.archive)
            operation.now result }
        ensures shut { FailsIfShut (A.condition self.old.archive) (A.condition self.new.archive)
            result }
        // What is rejected is told by the fault of the store, before the archive is asked.
        ensures away { IsTrue (turns_away R.is_standing self.old.reserve operation.now)
            → (result ≡ Err Store) × (self.new ≡ self.old) }
        ensures given_up { result ≡ Err Store
            → is_low R.is_standing self.new.reserve ≡ is_some self.old.reserve }
        ensures kept { result ≢ Err Store → self.new.reserve ≡ self.old.reserve }
    {
        if self.turns_away(operation) {
            return Err(StoreFault::Store);
        }
        let performed = self.archive.perform(service, operation);
        if matches!(&performed, Err(StoreFault::Store)) {
            self.give_up();
        }
        performed
    }

    fn stream<O: Outlet>(&mut self, file: u64, out: &mut O) -> Result<(), StreamFault> {
        self.archive.stream(file, out)
    }

    // What reads leaves the reserve as it is, also where the store fails.
    fn begin(&mut self, it: StoredFile) -> Result<(), StoreFault>
        ensures begins { Begins (A.condition self.new.archive) it result }
        ensures does { KeepsState (A.condition self.old.archive) (A.condition self.new.archive)
            result }
        ensures commits { A.may_commit self.new.archive ≡ A.may_commit self.old.archive }
        ensures shut { FailsIfShut (A.condition self.old.archive) (A.condition self.new.archive)
            result }
        ensures rest { self.new ≡ record self.old { archive = self.new.archive } }
    {
        self.archive.begin(it)
    }

    fn stream_on<O: Outlet>(&mut self, rest: Rest, out: &mut O) -> Result<Option<u64>, StreamFault>
        ensures streams { StreamsOn (A.condition self.old.archive) (A.condition self.new.archive)
            (O.taken out.old) (O.taken out.new) rest.file rest.sent result }
        ensures few { TakesFew (O.taken out.old) (O.taken out.new) }
        ensures does { KeepsState (A.condition self.old.archive) (A.condition self.new.archive)
            result }
        ensures commits { A.may_commit self.new.archive ≡ A.may_commit self.old.archive }
        ensures shut { FailsIfShut (A.condition self.old.archive) (A.condition self.new.archive)
            result }
        ensures count { CountsFailures (O.failures out.old) (O.failures out.new) result }
        ensures rest { self.new ≡ record self.old { archive = self.new.archive } }
    {
        self.archive.stream_on(rest, out)
    }

    fn is_open(&mut self) -> Result<bool, StoreFault> {
        self.archive.is_open()
    }

    fn work_ahead(&mut self, service: &Service, next: Option<&Operation<'_>>) -> bool {
        self.archive.work_ahead(service, next)
    }

    ghost honest_if_open = { λ its is_open. A.honest_if_open its.archive is_open };

    ghost settled = { λ its s represents. A.settled its.archive s represents };
}
