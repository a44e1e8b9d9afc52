//! Files that are given to a sink, one after another.
ghost use Rattle.std.specs.Prelude.{ℕ, List};
ghost use Rattle.dep_types.specs.Sinks.{file_given};
ghost use Rattle.dep_docs_out.specs.Made.{MakesItems};
ghost use Rattle.dep_bag.specs.Giving.{GivesWhole, StreamsFrom, IsContentGiven, AreContentsGiven, listed_transcript, manifests_transcript, tag_transcript};

use crate::export_fault::ExportFault;
use crate::source::BagSource;
use dep_docs_out::bag_metadata_doc;
use dep_manifest::{
    Algorithm, BAG_INFO, BAGIT, MANIFEST_SHA256, MANIFEST_SHA512, METADATA, TAG_MANIFEST_SHA256,
    TAG_MANIFEST_SHA512, TagManifests, both_tag_manifests, declaration, information,
    payload_manifest, payload_path,
};
use dep_types::{BagSink, FileRow, ObjectView};
use std::alloc::{AllocError, Global};

/// Gives a sink the folder of the payload, and the files that are not payload.
pub(crate) fn give_tag_files<K: BagSink>(
    alloc: Global,
    view: &ObjectView,
    sink: &mut K,
) -> Result<(), ExportFault>
    ensures { GivesWhole K.taken K.failures sink.old sink.new (tag_transcript view.now) result }
{
    give_listed(alloc, view, sink)?;
    give_tag_manifests(alloc, view, sink)
}

// Gives the folder of the payload, and the files that the tag manifests name.
fn give_listed<K: BagSink>(
    alloc: Global,
    view: &ObjectView,
    sink: &mut K,
) -> Result<(), ExportFault>
    ensures { GivesWhole K.taken K.failures sink.old sink.new (listed_transcript view.now) result }
{
    sink.folder("data")?;
    give_text(sink, BAGIT, declaration(alloc))?;
    give_text(sink, BAG_INFO, information(alloc, view))?;
    give_text(
        sink,
        MANIFEST_SHA256,
        payload_manifest(alloc, view, Algorithm::Sha256),
    )?;
    give_text(
        sink,
        MANIFEST_SHA512,
        payload_manifest(alloc, view, Algorithm::Sha512),
    )?;
    give_text(sink, METADATA, bag_metadata_doc(alloc, &view.metadata))
}

// Gives the tag manifests.
fn give_tag_manifests<K: BagSink>(
    alloc: Global,
    view: &ObjectView,
    sink: &mut K,
) -> Result<(), ExportFault>
    ensures { GivesWhole K.taken K.failures sink.old sink.new
        (manifests_transcript view.now) result }
{
    let TagManifests { sha256, sha512 } = both_tag_manifests(alloc, view)?;
    give_text(sink, TAG_MANIFEST_SHA256, Ok(sha256))?;
    give_text(sink, TAG_MANIFEST_SHA512, Ok(sha512))
}

// Gives a file with these bytes. Where they could not be made, nothing of it is given.
fn give_text<K: BagSink>(
    sink: &mut K,
    path: &str,
    made: Result<Vec<u8>, AllocError>,
) -> Result<(), ExportFault>
    ensures { (bytes : List ℕ) → MakesItems made bytes
        → GivesWhole K.taken K.failures sink.old sink.new (file_given (path.now, bytes)) result }
{
    let text = made?;
    sink.begin(path)?;
    sink.write(text.as_slice())?;
    sink.finish()?;
    Ok(())
}

/// Gives each of these files, as the source streams it.
pub(crate) fn give_payload<S: BagSource, K: BagSink>(
    alloc: Global,
    source: &mut S,
    rows: &[FileRow],
    sink: &mut K,
) -> Result<(), ExportFault>
    ensures { StreamsFrom K.taken K.failures S.condition source.old source.new sink.old sink.new
        (AreContentsGiven rows.now) result }
{
    for row in rows {
        give_stored(alloc, source, row, sink)?;
    }
    Ok(())
}

// Gives a file, as the source streams it.
fn give_stored<S: BagSource, K: BagSink>(
    alloc: Global,
    source: &mut S,
    row: &FileRow,
    sink: &mut K,
) -> Result<(), ExportFault>
    ensures { StreamsFrom K.taken K.failures S.condition source.old source.new sink.old sink.new
        (IsContentGiven row.now) result }
{
    let path = payload_path(alloc, row)?;
    sink.begin(path.as_str())?;
    drop(path);
    source.stream(row.file, sink)?;
    sink.finish()?;
    Ok(())
}
