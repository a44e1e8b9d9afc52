//! A database, looked through: it stays as it is.
ghost use Rattle.std.specs.Prelude.{◌≡◌, ◌≢◌, ℕ, List, false, IsTrue};
ghost use Rattle.std.specs.Io.KnownBytes.{Appends};
ghost use Rattle.sqlite.specs.Held.{state};
ghost use Rattle.sqlite.specs.State.{HasCleanDisk};
ghost use Rattle.dep_types.specs.Writing.{HasRisen};
ghost use Rattle.dep_bag.specs.Source.{OfEachState, StandsStill};
ghost use Rattle.dep_application.specs.Examinations.{AuditsDatabase, ExportsDatabase, ExportsInto};

use dep_bag::BagSource;
use dep_commands::{audit_all, export_object};
use dep_program::{Folder, FolderSink, Outcome, without_folder};
use dep_schema::Watch;
use dep_store::Store;
use dep_types::Outlet;
use sqlite::{Alter, Connection};
use std::alloc::Global;

/// Opens the store in the database, checks all its files, and hands the database back. The lines go to the outlet.
pub fn audit_database<S: Alter, W: Outlet, P: Watch>(
    alloc: Global,
    connection: Connection<S>,
    lines: &mut W,
    watch: &mut P,
) -> (Outcome, Connection<S>)
    requires settled { (state S.Store connection).in_transaction ≡ false }
    ensures audits { (written : List ℕ) × Appends (W.taken lines.old) (W.taken lines.new) written
        × AuditsDatabase (state S.Store connection) (state S.Store result.1) written result.0 }
    ensures honest { HasCleanDisk (state S.Store result.1) → HasCleanDisk (state S.Store connection) }
    ensures count { result.0 ≢ Outcome.TransferFault → W.failures lines.new ≡ W.failures lines.old }
    ensures cause { result.0 ≡ Outcome.TransferFault
        → HasRisen (W.failures lines.old) (W.failures lines.new) }
{
    match Store::open(alloc, connection, watch) {
        Ok(mut store) => {
            let outcome = audit_all(alloc, &mut store, lines, watch);
            (outcome, store.close())
        }
        Err((_, connection)) => (Outcome::StoreFault, connection),
    }
}

/// Opens the store in the database, makes the folder, which must not be there, and fills it with the bag of the
/// object. Hands the database back.
pub fn export_database<S: Alter, P: Watch>(
    rt: &HostRuntime,
    connection: Connection<S>,
    object: u64,
    folder: &str,
    watch: &mut P,
) -> (Outcome, Connection<S>)
    requires settled { (state S.Store connection).in_transaction ≡ false }
    ensures exports { ExportsDatabase (state S.Store connection) (state S.Store result.1) object result.0 }
    ensures honest { HasCleanDisk (state S.Store result.1) → HasCleanDisk (state S.Store connection) }
    ensures open { IsTrue (state S.Store result.1).is_open
        → IsTrue (state S.Store connection).is_open }
{
    match Store::open(rt.alloc(), connection, watch) {
        Ok(mut store) => {
            let outcome = export_into(rt, &mut store, object, folder);
            (outcome, store.close())
        }
        Err((_, connection)) => (Outcome::StoreFault, connection),
    }
}

/// Makes the folder, before the object is looked up, and fills it with the object's bag.
fn export_into<S: BagSource>(rt: &HostRuntime, source: &mut S, object: u64, folder: &str) -> Outcome
    ensures gives { (given : List ℕ) × OfEachState (S.condition source.old) (S.condition source.new)
        (λ s. ExportsInto s object given result) }
    ensures still { StandsStill (S.condition source.old) (S.condition source.new) }
{
    match Folder::new(rt, folder) {
        Ok(folder) => {
            let mut sink = FolderSink::new(folder);
            export_object(rt.alloc(), source, object, &mut sink)
        }
        Err(error) => without_folder(error.kind()),
    }
}
