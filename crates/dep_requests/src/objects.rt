//! Changes of one object.

ghost use Rattle.std.specs.Prelude.{◌≡◌, ℕ, Some, true};
ghost use Rattle.std.specs.FinMap as map;
ghost use Rattle.dep_row_maps.specs.TablesAre.{without_object};
ghost use Rattle.dep_decisions.specs.declared.decision.Decision.TheVariants.{Complete, DropFile, SetMetadata};
ghost use Rattle.dep_requests.specs.Clauses.{CarriesOut, MakesOf};

use crate::change::{Change, touched_object};
use dep_files::{delete_file, delete_files};
use dep_objects::{delete_object, put_object, set_metadata};
use dep_operations::View;
use dep_tables::Statements;
use dep_types::{Metadata, ObjectRow, StoreFault};
use std::alloc::Global;

/// The row of an object that becomes ingested.
pub(crate) fn completed(view: &View, row: ObjectRow) -> ObjectRow
    ensures { result ≡ record row {
      ingested = true;
      object_tag = view.now.next.change;
      changed = view.now.clock;
    } }
{
    ObjectRow {
        ingested: true,
        object_tag: view.next.change,
        changed: view.clock,
        ..row
    }
}

/// The object becomes ingested.
pub(crate) fn complete<T: Statements>(tx: &mut T, change: &Change<'_>) -> Result<(), StoreFault>
    ensures map { (n : ℕ) → CarriesOut T.lenders T.state tx.old tx.new result change.now
        (Complete n) }
{
    let row = touched_object(change.view)?;
    put_object(tx, &completed(change.view, row))
}

/// The row of an object whose metadata changes.
pub(crate) fn texts_changed(view: &View, row: ObjectRow) -> ObjectRow
    ensures { result ≡ record row {
      object_tag = view.now.next.change;
      metadata_tag = view.now.next.change;
      changed = view.now.clock;
    } }
{
    ObjectRow {
        object_tag: view.next.change,
        metadata_tag: view.next.change,
        changed: view.clock,
        ..row
    }
}

/// The object has this metadata alone.
pub(crate) fn set_texts<T: Statements>(
    tx: &mut T,
    change: &Change<'_>,
    metadata: &Metadata,
) -> Result<(), StoreFault>
    ensures map { (n : ℕ) → CarriesOut T.lenders T.state tx.old tx.new result change.now
        (SetMetadata n metadata.now) }
{
    let row = touched_object(change.view)?;
    put_object(tx, &texts_changed(change.view, row))?;
    set_metadata(tx, change.alloc, row.object, metadata)
}

/// The row of an object whose files change.
pub(crate) fn files_changed(view: &View, row: ObjectRow) -> ObjectRow
    ensures { result ≡ record row {
      object_tag = view.now.next.change;
      files_tag = view.now.next.change;
      changed = view.now.clock;
    } }
{
    ObjectRow {
        object_tag: view.next.change,
        files_tag: view.next.change,
        changed: view.clock,
        ..row
    }
}

/// The file goes from the object.
pub(crate) fn drop_file<T: Statements>(
    tx: &mut T,
    change: &Change<'_>,
    file: u64,
) -> Result<(), StoreFault>
    ensures map { (n : ℕ) → CarriesOut T.lenders T.state tx.old tx.new result change.now
        (DropFile n file) }
{
    let row = touched_object(change.view)?;
    put_object(tx, &files_changed(change.view, row))?;
    delete_file(tx, file)
}

/// The object goes, with its metadata and files.
pub(crate) fn drop_object<T: Statements>(
    tx: &mut T,
    alloc: Global,
    object: u64,
) -> Result<(), StoreFault>
    ensures map { MakesOf T.lenders T.state tx.old tx.new result
        (λ o s. map.get s.objects object ≡ Some o) (λ _ s. without_object s object) }
{
    delete_files(tx, alloc, object)?;
    delete_object(tx, object)
}
