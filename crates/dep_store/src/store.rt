//! The store.

ghost use Rattle.std.specs.Prelude.{◌≡◌, IsTrue, OnOk, IfOk, IfErr, MatchResult, option_map, false};
ghost use Rattle.sqlite.specs.State.{HasCleanDisk};
ghost use Rattle.sqlite.specs.Held.{state};
ghost use Rattle.dep_types.specs.State.{State};
ghost use Rattle.dep_fields.specs.Fit.{AreFit};
ghost use Rattle.dep_bag.specs.Source.{view_at};
ghost use Rattle.dep_answers.specs.Steps.{operation_step};
ghost use Rattle.dep_row_maps.specs.Keyed.{next_entry};
ghost use Rattle.dep_tables.specs.Edits.{IsObjectAfter};
ghost use Rattle.dep_views.specs.Ahead.{IsAhead};
ghost use Rattle.dep_transactions.specs.States.{StoreRepresents, DatabaseLeaves};
ghost use Rattle.dep_transactions.specs.Performing.{IsKeptUnchanged, KeepsWorkAhead};
ghost use Rattle.dep_store.specs.Causes.{OpensFor, RefusesFor};
ghost use Rattle.dep_store.specs.Migrating.{FindsOlder, FindsState, FindsTables, StillRepresents, KeepsTables, OfEither, OpenLeaves, RefusesNoState, RefusesNone, StartsEmpty};
ghost use Rattle.dep_exchange.specs.Shut.{ReportsOpen};
ghost use Rattle.dep_exchange.specs.Archives.{MakesStep, Reports, KeepsAll};
ghost use Rattle.dep_schema.specs.Fixity.{IsAudited};
ghost use Rattle.dep_store.specs.Archive.{condition_of};
ghost use Rattle.dep_store.specs.Copying.{CopiesLog};
ghost use Rattle.dep_store.specs.SendingOn.{BeginsIfOpen, SendsNextBlocks};
ghost use Rattle.dep_store.specs.Shut.{StoreFailsIfShut, StoreFailsToReport, StoreSendsFile, TicksIfOpen};
ghost use Rattle.dep_store.specs.Staying.{TablesStay, ReportsTables, LeavesOnly, HashesOn};

use crate::caching::{Known, Still, reported_by};
use crate::migrating::migrate;
use crate::read_transaction::{Preparation, read_if_open, read_in_transaction};
use crate::reading::{NextObject, ViewObject};
use crate::sending::stream_known;
use crate::sending_on::{SendingPlace, find_size, send_on};
use crate::tasks::transact;
use crate::ticking::{MoveClock, WriteClock};
use dep_answers::{Performed, Service, StoredFile};
use dep_decisions::Operation;
use dep_moment::Moment;
use dep_requests::{cached, clock_still, file_shown, show_service, still_known};
use dep_schema::{Audit, OpenFault, Schema, Watch, audit_files};
use dep_transactions::{check_open, perform_request, probe};
use dep_types::{Config, ObjectView, Outlet, StoreFault, StreamFault};
use dep_views::WorkAhead;
use sqlite::{Alter, Connection};
use std::alloc::Global;
use std::marker::Model;

/// The archive in the tables of a database. Contracts see it as the connection to them.
#[derive(Drop)]
pub struct Store<S: Alter> {
    alloc: Global,
    connection: Connection<S>,
    known: Known,
}

impl<S: Alter> Model for Store<S> {
    ghost use Rattle.sqlite.specs.Held.{Held, held_code, state};
    ghost use Rattle.dep_store.specs.Caching.{IsCached, IsOfOpen, IsKnownFile};

    ghost Value = { Held S };

    ghost coded = { held_code S.code };

    ghost view = { λ s. s.connection };

    ghost invariant = { λ s. IsCached (state S.Store s.connection) s.known.cache
        × IsOfOpen (state S.Store s.connection) s.known.cache
        × IsKnownFile (state S.Store s.connection) s.known.shown };
}

impl<S: Alter> Store<S> {
    /// Opens a database: one that has no table `format` yet, whose tables are then made, one that has the tables of
    /// version 2, or one of version 1, which becomes one of version 2, in one transaction. For that each file's bytes are
    /// read once, as they stand, and the watch is told of each block. After a fault the connection is handed back.
    // Where this is inlined, LLVM takes seconds for the large values that meet.
    #[inline(never)]
    pub fn open<W: Watch>(
        alloc: Global,
        connection: Connection<S>,
        watch: &mut W,
    ) -> Result<Store<S>, (OpenFault, Connection<S>)>
        requires settled { (state S.Store connection).in_transaction ≡ false }
        ensures fresh { IfOk result (StartsEmpty S.Store connection) }
        // What a store left, in either version, represents the same state.
        ensures found { IfOk result (FindsState S.Store connection) }
        ensures refused { IfErr result (RefusesNone S.Store connection) }
        // So it is of tables that represent no state, whatever version their row has: those of version 2 stay, and those
        // of version 1 get the SHA-512 of each file's bytes as they stand.
        ensures tables { IfOk result (FindsTables S.Store connection) }
        ensures older { IfOk result (FindsOlder S.Store connection) }
        // An Ok has a cause, and so has a fault.
        ensures reported { MatchResult result (OpensFor S.Store connection) (RefusesFor S.Store connection) }
        // What a store left is never of a version that is not known.
        ensures known { IfErr result (RefusesNoState S.Store connection) }
        // A fault that leaves the store open leaves tables of ours as they were, in the version that they had, and any others
        // of which version 1 is not shown.
        ensures left { IfErr result (KeepsTables S.Store connection) }
        ensures stood { IfErr result (StillRepresents S.Store connection) }
        ensures mode { OfEither result (λ left. (state S.Store left).in_transaction ≡ false) }
        ensures honest { OfEither result
            (λ left. HasCleanDisk (state S.Store left) → HasCleanDisk (state S.Store connection)) }
        ensures open { OfEither result
            (λ left. IsTrue (state S.Store left).is_open → IsTrue (state S.Store connection).is_open) }
        ensures stop { OfEither result
            (λ left. OpenLeaves (state S.Store connection) (state S.Store left)) }
    {
        let _schema = connection.schema();
        let _between = connection.is_autocommit();
        let schema = dep_schema::open(connection)?;
        let version = schema.version();
        let Schema { mut connection, .. } = schema;
        let known = Known::NOTHING;
        if version == 2 {
            return Ok(Store {
                alloc,
                connection,
                known,
            });
        }
        match migrate(&mut connection, alloc, watch) {
            Ok(()) => Ok(Store {
                alloc,
                connection,
                known,
            }),
            Err(fault) => Err((OpenFault::from(fault), connection)),
        }
    }

    /// Moves the clock to the moment, and never back, and ends the uploads that were left idle. It returns
    /// the clock.
    pub fn tick(&mut self, config: &Config, moment: Moment) -> Result<Moment, StoreFault>
        // On a store that was shut it fails, and a crash leaves what it could leave before.
        ensures { TicksIfOpen (state S.Store self.old) (state S.Store self.new)
            config.now moment result }
    {
        if !self.connection.is_autocommit() {
            return Err(StoreFault::Store);
        }
        let secs = moment.secs();
        if let Some(clock) = clock_still(&self.known.cache, config, secs) {
            let shown = Moment::new(clock);
            return Ok(shown);
        }
        self.known = Known::NOTHING;
        let mut asked = Still {
            config,
            moment: secs,
        };
        let found = read_if_open(&mut self.connection, &mut asked)?;
        match found {
            Some(it) => {
                self.known.cache = Some(it);
                let reported = Moment::new(it.clock);
                Ok(reported)
            }
            None => {
                let task = MoveClock {
                    config,
                    moment: secs,
                };
                transact(&mut self.connection, &task)
            }
        }
    }

    /// Answers a request by what is cached, where that is enough, and learns of each other answer what may be cached. The other
    /// ones are done in one transaction, once the clock has gone on. The reply is made before the commit, so an `Err` changes
    /// nothing. Segments that were hashed before aren't hashed again, and what is hashed for the request stays known.
    pub fn perform(
        &mut self,
        ahead: &mut WorkAhead,
        service: &Service,
        operation: &Operation<'_>,
    ) -> Result<Performed, StoreFault>
        ensures does { MakesStep (condition_of S.Store self.old) (condition_of S.Store self.new)
            (λ s. AreFit operation.now.fields × IsAhead s ahead.old)
            (λ s. operation_step service.now s operation.now) result }
        // What is refused, and what only shows, commits nothing and leaves the database as it was.
        ensures unchanged { IsKeptUnchanged (state S.Store self.old) (state S.Store self.new) result
            service.now operation.now ahead.old }
        // What was hashed stays what was received, also where the request is refused or fails.
        ensures ahead { KeepsWorkAhead (state S.Store self.old) (state S.Store self.new)
            ahead.old ahead.new }
        // On a store that was shut it fails, and a crash leaves what it could leave before.
        ensures shut { StoreFailsIfShut (state S.Store self.old) (state S.Store self.new) result }
    {
        if !self.connection.is_autocommit() {
            return Err(StoreFault::Store);
        }
        if let Some(it) = cached(&self.known.cache, operation) {
            return show_service(self.alloc, service, operation, &it);
        }
        let known = self.known;
        self.known = Known::NOTHING;
        check_open(&mut self.connection)?;
        let done = perform_request(&mut self.connection, self.alloc, ahead, service, operation)?;
        self.known.cache = still_known(known.cache, done.has_changes);
        self.known.shown = file_shown(operation, &done);
        Ok(done.performed)
    }

    /// Hashes a few blocks of an upload to which a segment came, or looks for the next one that was there before, and
    /// returns whether more may be left. It changes nothing that is kept.
    pub fn hash_ahead(&mut self, ahead: &mut WorkAhead) -> Result<bool, StoreFault>
        ensures { HashesOn (state S.Store self.old) (state S.Store self.new)
            ahead.old ahead.new }
    {
        self.known = Known::NOTHING;
        read_in_transaction(&mut self.connection, ahead)
    }

    /// Does a part of what the answer to a request needs, before it is answered, and returns whether more may be left: up to 16
    /// blocks (1 MiB) of the uploads that references in it name are hashed, or some of the texts or files of an object that its
    /// reply lists are read. Nothing is hashed for a request that is refused whatever they are. It changes nothing that is kept.
    pub fn prepare(
        &mut self,
        ahead: &mut WorkAhead,
        config: &Config,
        operation: &Operation<'_>,
    ) -> Result<bool, StoreFault>
        ensures { HashesOn (state S.Store self.old) (state S.Store self.new)
            ahead.old ahead.new }
    {
        self.known = Known::NOTHING;
        let mut asked = Preparation {
            alloc: self.alloc,
            ahead,
            config,
            operation,
        };
        read_in_transaction(&mut self.connection, &mut asked)
    }

    /// Commits the clock as it is. Before a commit SQLite copies a log of 1,000 pages and more into the file, so behind
    /// a request that wrote much the next one hasn't to wait for that. A shorter log isn't copied.
    pub fn copy_log(&mut self) -> Result<(), StoreFault>
        ensures { CopiesLog (state S.Store self.old) (state S.Store self.new) result }
    {
        if !self.connection.is_autocommit() {
            return Err(StoreFault::Store);
        }
        self.known = Known::NOTHING;
        check_open(&mut self.connection)?;
        transact(&mut self.connection, &WriteClock)
    }

    /// Sends the content of the file of this number, one block at a time.
    pub fn stream<O: Outlet>(&mut self, file: u64, out: &mut O) -> Result<(), StreamFault>
        // On a store that was shut it fails, and a crash leaves what it could leave before.
        ensures { StoreSendsFile (state S.Store self.old) (state S.Store self.new)
            (O.taken out.old) (O.taken out.new) (O.failures out.old) (O.failures out.new)
            file result }
    {
        if !self.connection.is_autocommit() {
            return Err(StreamFault::Store);
        }
        let known = self.known;
        self.known = Known::NOTHING;
        stream_known(&mut self.connection, known.shown, file, out)?;
        self.known.cache = known.cache;
        Ok(())
    }

    /// Finds that the file is there, so that its content can be sent in steps. Of a file that is known to be there nothing is
    /// asked. One that isn't there is a fault of the store.
    pub fn begin(&mut self, it: StoredFile) -> Result<(), StoreFault>
        // On a store that was shut it fails, and a crash leaves what it could leave before.
        ensures { BeginsIfOpen (state S.Store self.old) (state S.Store self.new) it result }
    {
        if !self.connection.is_autocommit() {
            return Err(StoreFault::Store);
        }
        let known = self.known;
        self.known = Known::NOTHING;
        find_size(&mut self.connection, known.shown, it)?;
        self.known = known;
        Ok(())
    }

    /// Sends the content of a file from a place on, what up to four blocks have. It returns how many bytes of it are sent
    /// then, or `None` where all are.
    pub fn stream_on<O: Outlet>(
        &mut self,
        it: StoredFile,
        start: u64,
        out: &mut O,
    ) -> Result<Option<u64>, StreamFault>
        // On a store that was shut it fails, and a crash leaves what it could leave before.
        ensures { SendsNextBlocks (state S.Store self.old) (state S.Store self.new)
            (O.taken out.old) (O.taken out.new) (O.failures out.old) (O.failures out.new)
            it start result }
    {
        if !self.connection.is_autocommit() {
            return Err(StreamFault::Store);
        }
        let known = self.known;
        self.known = Known::NOTHING;
        let place = SendingPlace { it, start };
        let next = send_on(&mut self.connection, self.alloc, known.shown, place, out)?;
        self.known = known;
        Ok(next)
    }

    /// The object of this number, if there is one, with its metadata and its files.
    pub fn view(&mut self, object: u64) -> Result<Option<ObjectView>, StoreFault>
        ensures does { Reports (condition_of S.Store self.old) (condition_of S.Store self.new)
            (λ s found. found ≡ view_at s object) result }
        ensures still { TablesStay (state S.Store self.old) (state S.Store self.new) }
        ensures opened { HasCleanDisk (state S.Store self.new)
            → OnOk result (IsTrue (state S.Store self.old).is_open) }
    {
        self.known = Known::NOTHING;
        let task = ViewObject {
            alloc: self.alloc,
            object,
        };
        transact(&mut self.connection, &task)
    }

    /// Returns the least number of an object above this one, if there is one.
    pub fn next_object(&mut self, after: u64) -> Result<Option<u64>, StoreFault>
        ensures does { Reports (condition_of S.Store self.old) (condition_of S.Store self.new)
            (λ s found. found ≡ option_map (λ e. e.0) (next_entry s.objects after)) result }
        // So it is of tables that represent no state: the least row above this number is returned.
        ensures rows { ReportsTables (state S.Store self.old) (state S.Store self.new)
            (IsObjectAfter after) result }
        ensures opened { HasCleanDisk (state S.Store self.new)
            → OnOk result (IsTrue (state S.Store self.old).is_open) }
    {
        self.known = Known::NOTHING;
        transact(&mut self.connection, &NextObject { after })
    }

    /// Checks the files of this object by the SHA-256 and the SHA-512 of the bytes that stand in the tables, also where
    /// the rows represent no state. Each block is read once, and one is held at a time: the watch is told of it.
    pub fn audit<W: Watch>(&mut self, object: u64, watch: &mut W) -> Result<Audit, StoreFault>
        ensures does { ReportsTables (state S.Store self.old) (state S.Store self.new)
            (λ t. IsAudited t object) result }
        // On a store that was shut it fails, and a crash leaves what it could leave before.
        ensures shut { StoreFailsIfShut (state S.Store self.old) (state S.Store self.new) result }
    {
        self.known = Known::NOTHING;
        audit_files(&mut self.connection, self.alloc, object, watch)
    }

    /// Whether the store is open, as far as that can be known: `false` where a fault has shut it, for good.
    /// Before that is known memory may run out, or the disk fail once more; ask again then.
    pub fn is_open(&mut self) -> Result<bool, StoreFault>
        ensures reported { IfOk result (ReportsOpen (condition_of S.Store self.new)) }
        // A failure has a cause, of which lack of memory can be seen by nobody.
        ensures cause { HasCleanDisk (state S.Store self.new)
            → IfErr result (StoreFailsToReport (state S.Store self.old) (state S.Store self.new)) }
        ensures rests { KeepsAll (condition_of S.Store self.old) (condition_of S.Store self.new) }
        ensures left { LeavesOnly (state S.Store self.old) (state S.Store self.new) }
    {
        if self.known.cache.is_some() {
            return Ok(true);
        }
        if !self.connection.is_autocommit() {
            return Err(StoreFault::Store);
        }
        self.known = Known::NOTHING;
        reported_by(probe(&mut self.connection))
    }

    /// While the store represents a state, a crash leaves that state.
    pub fn settled(&self)
        ensures left { (s : State) → StoreRepresents (state S.Store self.now) s
            → DatabaseLeaves (state S.Store self.now) (λ left. left ≡ s) }
        ensures clean { IsTrue (state S.Store self.now).is_open
            → HasCleanDisk (state S.Store self.now) }
    {}

    /// Gives the connection back.
    pub fn close(self) -> Connection<S>
        ensures { result ≡ self }
    {
        self.connection
    }
}
