//! The export of a bag.
ghost use Rattle.std.specs.Prelude.{◌≡◌, Err};
ghost use Rattle.std.specs.Io.KnownBytes.{Keeps};
ghost use Rattle.dep_bag.specs.Source.{GivesFrom, KeepsStanding, StandsStill};
ghost use Rattle.dep_bag.specs.Giving.{AccountsForFailures};
ghost use Rattle.dep_bag.specs.Exports.{IsExported};

use crate::export_fault::ExportFault;
use crate::giving::{give_payload, give_tag_files};
use crate::source::BagSource;
use dep_types::BagSink;
use std::alloc::Global;

/// Gives a sink the folder `data` and then each file of an object's bag, in the order of the list.
/// Contents are sent as the source streams them, and no content is held or hashed here. After a
/// fault the sink holds a prefix of what it was to be given.
pub fn export<S: BagSource, K: BagSink>(
    alloc: Global,
    source: &mut S,
    object: u64,
    sink: &mut K,
) -> Result<(), ExportFault>
    ensures gives { GivesFrom (S.condition source.old) (S.condition source.new)
        (K.taken sink.old) (K.taken sink.new) (λ s given. IsExported s object given result) }
    ensures absent { result ≡ Err ExportFault.NoSuchObject →
        Keeps (K.taken sink.old) (K.taken sink.new) }
    ensures cause { AccountsForFailures result (K.failures sink.old) (K.failures sink.new) }
    ensures kept { KeepsStanding (S.condition source.old) (S.condition source.new) result }
    ensures still { StandsStill (S.condition source.old) (S.condition source.new) }
{
    let Some(view) = source.view(object)? else {
        return Err(ExportFault::NoSuchObject);
    };
    give_tag_files(alloc, &view, sink)?;
    give_payload(alloc, source, view.files.as_slice(), sink)
}
