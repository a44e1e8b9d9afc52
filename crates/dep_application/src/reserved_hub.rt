//! A hub over a database with a reserve.
ghost use Rattle.std.specs.Prelude.{◌≡◌, false, IfOk, IfErr, IsTrue};
ghost use Rattle.sqlite.specs.Held.{state};
ghost use Rattle.dep_types.specs.Config.{IsChecked};
ghost use Rattle.dep_hub.specs.Representing.{GoesOnFrom};
ghost use Rattle.dep_store.specs.Migrating.{KeepsDatabase};
ghost use Rattle.dep_application.specs.Starting.{IsGivenOrStore, IsOpened, OpeningLeaves, RefusesConfig};
ghost use Rattle.dep_application.specs.Reserved.{reserved_condition};

use crate::starting::{StartFault, check_config};
use dep_commands::{Reserve, ReservedArchive};
use dep_exchange::Archive;
use dep_hub::{Hub, HubFault};
use dep_schema::OpenFault;
use dep_store::{HashingStore, Store, Unwatched};
use dep_types::Config;
use sqlite::{Alter, Connection};
use std::alloc::Global;

/// Checks the configuration, opens the database as a store, takes the reserve, if there is one, and makes a hub over both,
/// without connections. A refusal hands the connection back, as one of `open_hub` does.
// Where this is inlined, LLVM takes seconds for the large values that meet.
#[inline(never)]
pub fn open_reserved_hub<S: Alter, R: Reserve + Drop>(
    alloc: Global,
    config: Config,
    connection: Connection<S>,
    reserve: Option<R>,
) -> Result<Hub<ReservedArchive<HashingStore<S>, R>>, (StartFault, Connection<S>)>
    requires settled { (state S.Store connection).in_transaction ≡ false }
    ensures opened { IfOk result (IsOpened (reserved_condition S.Store) config (state S.Store connection)) }
    // No database is opened for a configuration that is refused.
    ensures checked { IfErr result (λ e. (fault : OpenFault) → e.0 ≡ StartFault.Open fault
        → IsChecked config) }
    ensures left { IfErr result (λ e. (fault : OpenFault) → e.0 ≡ StartFault.Open fault
        → IsTrue (state S.Store e.1).is_open
        → KeepsDatabase (state S.Store connection) (state S.Store e.1)) }
    ensures refused { IfErr result (RefusesConfig config connection) }
    ensures kept { IfErr result (λ e. e.0 ≡ StartFault.Hub HubFault.Memory
        → IsGivenOrStore S.Store config connection e.1) }
    ensures stop { IfErr result (λ e.
        OpeningLeaves config (state S.Store connection) (state S.Store e.1)) }
{
    // For the proof alone: there is nothing that was not committed.
    let _between = connection.is_autocommit();
    if let Err(fault) = check_config(alloc, &config) {
        drop(config);
        drop(reserve);
        return Err((StartFault::Hub(fault), connection));
    }
    match Store::open(alloc, connection, &mut Unwatched) {
        Ok(store) => match hub_over(alloc, config, HashingStore::new(alloc, store), reserve) {
            Ok(hub) => Ok(hub),
            Err((fault, archive)) => Err((StartFault::Hub(fault), archive.close())),
        },
        Err((fault, connection)) => {
            drop(config);
            drop(reserve);
            Err((StartFault::Open(fault), connection))
        }
    }
}

// The archive is any one here, since each call over a database is dear to prove.
/// A hub over the archive with the reserve, if there is one, without connections. A refusal hands the archive back.
fn hub_over<A: Archive, R: Reserve + Drop>(
    alloc: Global,
    config: Config,
    archive: A,
    reserve: Option<R>,
) -> Result<Hub<ReservedArchive<A, R>>, (HubFault, A)>
    ensures configured { IfOk result (λ hub. hub.config ≡ config) }
    ensures checked { IfOk result (λ _. IsChecked config) }
    ensures kept { IfOk result (λ hub. hub.store.archive ≡ archive) }
    ensures again { IfOk result (λ hub.
        GoesOnFrom (λ its. A.condition its.archive) config hub.store hub) }
    ensures refused { IfErr result (λ e. e.0 ≡ HubFault.Config → ¬ IsChecked config) }
    ensures handed { IfErr result (λ e. e.1 ≡ archive) }
{
    match Hub::new(alloc, config, ReservedArchive::new(archive, reserve)) {
        Ok(hub) => Ok(hub),
        Err((fault, archive)) => Err((fault, archive.into_archive())),
    }
}
