//! A hub over a database, also over what a stop left.
ghost use Rattle.std.specs.Prelude.{◌≡◌, [], false, IfOk, IfErr, OnOk, IsTrue, MatchResult};
ghost use Rattle.sqlite.specs.Held.{state};
ghost use Rattle.sqlite.specs.State.{HasCleanDisk};
ghost use Rattle.dep_types.specs.State.{empty_state};
ghost use Rattle.dep_types.specs.Config.{IsChecked};
ghost use Rattle.dep_schema.specs.Openable.{HoldsNone, IsOpenable};
ghost use Rattle.dep_store.specs.Causes.{FailsToOpenTables};
ghost use Rattle.dep_store.specs.Migrating.{KeepsDatabase};
ghost use Rattle.dep_application.specs.Starting.{GoesOnFromStop, IsGivenOrStore, OpeningLeaves, RefusesConfig, outcome_of_start};
ghost use Rattle.dep_hub.specs.Representing.{RepresentsAfter, IsClean, IsHonest};
ghost use Rattle.dep_store.specs.HashingStores.{condition_with_hashes};

use dep_exchange::Archive;
use dep_hub::{Hub, HubFault};
use dep_program::Outcome;
use dep_schema::{OpenFault, Watch};
use dep_store::{HashingStore, Store};
use dep_types::{Config, ConfigFault};
use sqlite::{Alter, Connection};
use std::alloc::Global;
use std::error::Error;
use std::fmt;

/// Why no hub was made over a database.
#[derive(Clone, Copy, Debug)]
pub enum StartFault {
    /// The database was not opened as a store.
    Open(OpenFault),
    /// The hub was refused.
    Hub(HubFault),
}

impl fmt::Display for StartFault {
    fn fmt<W: fmt::Write>(&self, f: &mut fmt::Formatter<W>) -> fmt::Result {
        match self {
            StartFault::Open(fault) => write!(f, "the database was not opened: {fault}"),
            StartFault::Hub(fault) => write!(f, "the server was refused: {fault}"),
        }
    }
}

impl Error for StartFault {}

impl StartFault {
    /// How a run of a program ends that needs the hub.
    pub fn outcome(self) -> Outcome
        ensures { result ≡ outcome_of_start self }
    {
        match self {
            StartFault::Hub(HubFault::Config) => Outcome::Usage,
            StartFault::Hub(HubFault::Memory) | StartFault::Open(_) => Outcome::StoreFault,
        }
    }
}

/// Checks the configuration, before a database is opened for it. It is refused as by `Hub::new`.
pub fn check_config(alloc: Global, config: &Config) -> Result<(), HubFault>
    ensures checked { OnOk result (IsChecked config.now) }
    ensures refused { IfErr result (λ fault. fault ≡ HubFault.Config → ¬ IsChecked config.now) }
{
    match config.check(alloc) {
        Ok(()) => Ok(()),
        Err(ConfigFault::Memory) => Err(HubFault::Memory),
        Err(ConfigFault::Base | ConfigFault::Limit) => Err(HubFault::Config),
    }
}

/// Checks the configuration, opens the database as a store, and makes a hub over it, without
/// connections. A refusal hands the connection back. The watch is told of what is read where
/// version 1 becomes version 2.
// Where this is inlined, LLVM takes seconds for the large values that meet.
#[inline(never)]
pub fn open_hub<S: Alter, W: Watch>(
    alloc: Global,
    config: Config,
    connection: Connection<S>,
    watch: &mut W,
) -> Result<Hub<HashingStore<S>>, (StartFault, Connection<S>)>
    requires settled { (state S.Store connection).in_transaction ≡ false }
    ensures fresh { IfOk result (λ hub. IsHonest (condition_with_hashes S.Store) hub
        → HoldsNone (state S.Store connection).now.trees
        → RepresentsAfter (condition_with_hashes S.Store) hub empty_state []) }
    // Over what a stop left it goes on from the records before it, for each state that the stop
    // may have left.
    ensures again { IfOk result (GoesOnFromStop (condition_with_hashes S.Store) config (state S.Store connection)) }
    ensures config { IfOk result (λ hub. hub.config ≡ config) }
    // No database is opened for a configuration that is refused.
    ensures checked { MatchResult result (λ _. IsChecked config)
        (λ e. (fault : OpenFault) → e.0 ≡ StartFault.Open fault → IsChecked config) }
    ensures next { IfOk result (λ hub. hub.next ≡ 0) }
    // A database that is not opened is handed back as it was, in the version that it had, unless version 1 is shown of other
    // tables than ours.
    ensures left { IfErr result (λ e. (fault : OpenFault) → e.0 ≡ StartFault.Open fault
        → IsTrue (state S.Store e.1).is_open
        → KeepsDatabase (state S.Store connection) (state S.Store e.1)) }
    // It says why the database was not opened.
    ensures reported { IfErr result (λ e. (fault : OpenFault) → e.0 ≡ StartFault.Open fault
        → HasCleanDisk (state S.Store e.1)
        → FailsToOpenTables S.Store connection e.1 fault) }
    // What a store left is opened, and never refused as of a version that is not known.
    ensures known { IfErr result (λ e. HasCleanDisk (state S.Store e.1)
        → e.0 ≡ StartFault.Open OpenFault.UnknownVersion → IsOpenable (state S.Store connection)
        → ⊥) }
    // The configuration is refused before that, so its database is handed back as it was given.
    ensures refused { IfErr result (RefusesConfig config connection) }
    // Where memory runs out it may have been opened.
    ensures kept { IfErr result (λ e. e.0 ≡ StartFault.Hub HubFault.Memory
        → IsGivenOrStore S.Store config connection e.1) }
    ensures honest { MatchResult result
        (λ hub. IsHonest (condition_with_hashes S.Store) hub → HasCleanDisk (state S.Store connection))
        (λ e. HasCleanDisk (state S.Store e.1) → HasCleanDisk (state S.Store connection)) }
    ensures clean { MatchResult result
        (λ hub. IsClean (condition_with_hashes S.Store) hub → IsTrue (state S.Store connection).is_open)
        (λ e. IsTrue (state S.Store e.1).is_open → IsTrue (state S.Store connection).is_open) }
    // What a stop now leaves, whether a hub was made or not.
    ensures stop { MatchResult result
        (λ hub. OpeningLeaves config (state S.Store connection) (state S.Store hub.store.store))
        (λ e. OpeningLeaves config (state S.Store connection) (state S.Store e.1)) }
{
    // For the proof alone: there is nothing that was not committed.
    let _between = connection.is_autocommit();
    if let Err(fault) = check_config(alloc, &config) {
        drop(config);
        return Err((StartFault::Hub(fault), connection));
    }
    match Store::open(alloc, connection, watch) {
        Ok(store) => match Hub::new(alloc, config, HashingStore::new(alloc, store)) {
            Ok(hub) => Ok(hub),
            Err((fault, archive)) => Err((StartFault::Hub(fault), archive.close())),
        },
        Err((fault, connection)) => {
            drop(config);
            Err((StartFault::Open(fault), connection))
        }
    }
}

/// Hands the database of a hub back.
pub fn close_hub<S: Alter>(hub: Hub<HashingStore<S>>) -> Connection<S>
    ensures { result ≡ hub.store.store }
{
    archive_of(hub).close()
}

// A call of `Hub::into_store` over a database is dear to prove, since it says much of the archive: this says which it is.
fn archive_of<A: Archive>(hub: Hub<A>) -> A
    ensures { result ≡ hub.store }
{
    hub.into_store()
}
