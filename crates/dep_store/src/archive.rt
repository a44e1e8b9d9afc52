//! A store as an archive, which hashes the segments of uploads before a deposit names them, and has a long log copied
//! before the next commit.

ghost use Rattle.std.specs.Prelude.{◌≡◌, false, is_some, IsTrue};
ghost use Rattle.sqlite.proofs.StateLemmas.{clean_if_open};
ghost use Rattle.dep_types.specs.State.{State};
ghost use Rattle.dep_views.specs.Ahead.{IsAhead};
ghost use Rattle.dep_transactions.proofs.Transacting.{leaves_as_was};
ghost use Rattle.dep_exchange.specs.ArchiveCalls.{Runs, WorkedAhead};
ghost use Rattle.dep_exchange.specs.Archives.{CommitsIfDue, KeepsEachState};
ghost use Rattle.dep_store.specs.HashingStores.{call_log_of, condition_with_hashes, may_commit};
ghost use Rattle.dep_store.specs.LogCopies.{after_call};

use crate::log_copy::LogCopy;
use crate::store::Store;
use dep_answers::{Performed, Service, StoredFile};
use dep_decisions::Operation;
use dep_exchange::{Archive, Rest};
use dep_moment::Moment;
use dep_types::{Config, Method, Outlet, Resource, StoreFault, StreamFault};
use dep_views::WorkAhead;
use sqlite::{Alter, Connection};
use std::alloc::Global;

/// A store, with how far uploads were hashed.
#[derive(Drop)]
pub struct HashingStore<S: Alter> {
    store: Store<S>,
    ahead: WorkAhead,
    /// Whether a block may be left that can be hashed, or an upload that wasn't looked at since the store was opened.
    is_due: bool,
    log_copy: LogCopy,
}

impl<S: Alter> HashingStore<S> {
    /// A store of whose uploads nothing is hashed yet.
    pub fn new(alloc: Global, store: Store<S>) -> HashingStore<S>
        ensures store { result.store ≡ store }
        ensures ahead { (s : State) → IsAhead s result.ahead }
        ensures commits { may_commit result ≡ false }
    {
        HashingStore {
            store,
            ahead: WorkAhead::new(alloc),
            is_due: true,
            log_copy: LogCopy::NotDue,
        }
    }

    /// The store, for calls that no request makes, as an audit.
    pub fn store_mut(&mut self) -> &mut Store<S> {
        &mut self.store
    }

    /// Gives the connection of the store back.
    pub fn close(self) -> Connection<S>
        ensures { result ≡ self.store }
    {
        self.store.close()
    }
}

/// Notes the upload to which the request sent a segment, if it sent one that was kept. Returns whether it did.
fn note_segment(ahead: &mut WorkAhead, operation: &Operation<'_>, performed: &Performed) -> bool
    ensures ahead { (s : State) → IsAhead s ahead.old → IsAhead s ahead.new }
    ensures refused { IsTrue (is_some performed.now.refusal)
        → (ahead.new ≡ ahead.old) × (result ≡ false) }
{
    if performed.refusal.is_some() {
        return false;
    }
    match (operation.target.method, &operation.target.resource) {
        (Method::Post, Resource::Upload(upload)) => {
            ahead.hashes.note(*upload);
            true
        }
        _ => false,
    }
}

impl<S: Alter> Archive for HashingStore<S> {
    ghost condition = { condition_with_hashes S.Store };

    ghost call_log = { call_log_of S.Store };

    ghost may_commit = { λ archive. may_commit archive };

    fn tick(&mut self, config: &Config, moment: Moment) -> Result<Moment, StoreFault> {
        self.store.tick(config, moment)
    }

    /// Notes what an answered request leaves to do later: an upload to be hashed, a long log to be copied.
    fn perform(
        &mut self,
        service: &Service,
        operation: &Operation<'_>,
    ) -> Result<Performed, StoreFault> {
        let performed = self.store.perform(&mut self.ahead, service, operation)?;
        self.is_due |= note_segment(&mut self.ahead, operation, &performed);
        self.log_copy.note(operation, &performed);
        Ok(performed)
    }

    fn stream<O: Outlet>(&mut self, file: u64, out: &mut O) -> Result<(), StreamFault> {
        self.store.stream(file, out)
    }

    fn begin(&mut self, it: StoredFile) -> Result<(), StoreFault> {
        self.store.begin(it)
    }

    fn stream_on<O: Outlet>(
        &mut self,
        rest: Rest,
        out: &mut O,
    ) -> Result<Option<u64>, StreamFault> {
        self.store.stream_on(rest.file, rest.sent, out)
    }

    fn is_open(&mut self) -> Result<bool, StoreFault> {
        self.store.is_open()
    }

    /// Does a part of what the request that waits needs, or, where none does, hashes a part of an upload that one may name later,
    /// and forgets what was read, unless the log is to be copied first.
    fn work_ahead(&mut self, service: &Service, next: Option<&Operation<'_>>) -> bool
        ensures asked { Runs (WorkedAhead result)
            (call_log_of S.Store self.old) (call_log_of S.Store self.new) }
        ensures commits { CommitsIfDue (may_commit self.old) (may_commit self.new)
            (condition_with_hashes S.Store self.old) (condition_with_hashes S.Store self.new) }
        ensures rests { KeepsEachState
            (condition_with_hashes S.Store self.old) (condition_with_hashes S.Store self.new) }
        // Also while requests wait each call brings the copy of the log nearer.
        ensures counts { self.new.log_copy ≡ after_call self.old.log_copy }
    {
        if self.log_copy.count() {
            // Where it fails, the next commit has the log copied.
            let _copied = self.store.copy_log();
            return self.is_due | next.is_some();
        }
        // Who waited through the request is answered first.
        if matches!(self.log_copy, LogCopy::DueAfter(_)) {
            return true;
        }
        if let Some(operation) = next {
            let hashed = self
                .store
                .prepare(&mut self.ahead, service.config(), operation);
            return hashed.unwrap_or(false);
        }
        self.ahead.forget();
        if !self.is_due {
            return false;
        }
        self.is_due = self.store.hash_ahead(&mut self.ahead).unwrap_or(false);
        self.is_due
    }

    ghost honest_if_open = { λ archive is_open.
        clean_if_open (S.Store.view archive.store.store)
        (S.Store.shut_if_dirty archive.store.store) is_open };

    ghost settled = { λ archive s keeps. leaves_as_was _ s
        (λ trees h. S.Store.settled archive.store.store trees keeps.represents.represents.is_open h)
        keeps.represents };
}
