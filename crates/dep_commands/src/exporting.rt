//! The export of an object's bag.
ghost use Rattle.std.specs.Prelude.{◌≡◌, ℕ, List};
ghost use Rattle.std.specs.Io.KnownBytes.{Appends, Keeps};
ghost use Rattle.dep_types.specs.State.{State};
ghost use Rattle.dep_types.specs.Conditions.{Represents, HasCleanDisk};
ghost use Rattle.dep_bag.specs.Source.{StandsStill};
ghost use Rattle.dep_commands.specs.Exports.{Exports, outcome_of_export};
ghost use Rattle.dep_commands.specs.Reporting.{BlamesTransfer};

use dep_bag::{BagSource, ExportFault, export};
use dep_program::Outcome;
use dep_types::BagSink;
use std::alloc::Global;

/// Gives a sink the bag of an object, as it stands in the archive: the folder `data` and then each file, in the
/// order of the bag's list.
pub fn export_object<S: BagSource, K: BagSink>(
    alloc: Global,
    source: &mut S,
    object: u64,
    sink: &mut K,
) -> Outcome
    ensures gives { (given : List ℕ) × Appends (K.taken sink.old) (K.taken sink.new) given
        × (HasCleanDisk (S.condition source.new)
        → (s : State) → Represents (S.condition source.old) s
        → Exports s object given result) }
    ensures absent { result ≡ Outcome.NoSuchObject → Keeps (K.taken sink.old) (K.taken sink.new) }
    ensures blames { BlamesTransfer (K.failures sink.old) (K.failures sink.new) result }
    ensures kept { result ≡ Outcome.Done → HasCleanDisk (S.condition source.new)
        → (s : State) → Represents (S.condition source.old) s → Represents (S.condition source.new) s }
    ensures still { StandsStill (S.condition source.old) (S.condition source.new) }
{
    match export(alloc, source, object, sink) {
        Ok(()) => Outcome::Done,
        Err(fault) => outcome_of(fault),
    }
}

fn outcome_of(fault: ExportFault) -> Outcome
    ensures { result ≡ outcome_of_export fault }
{
    match fault {
        ExportFault::NoSuchObject => Outcome::NoSuchObject,
        ExportFault::Sink => Outcome::TransferFault,
        ExportFault::Store | ExportFault::Memory => Outcome::StoreFault,
    }
}
