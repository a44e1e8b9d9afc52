//! Deposits.

ghost use Rattle.std.specs.Prelude.{◌≡◌, ◌||◌, ℕ, List, Some};
ghost use Rattle.std.specs.FinMap as map;
ghost use Rattle.dep_types.specs.Rows.{object_row};
ghost use Rattle.dep_types.specs.State.{Object, State};
ghost use Rattle.dep_row_maps.specs.TablesAre.{with_metadata, with_object};
ghost use Rattle.dep_decisions.specs.Effects.{appended};
ghost use Rattle.dep_decisions.specs.declared.decision.Decision.TheVariants.{Append, Create, Replace};
ghost use Rattle.dep_requests.specs.Changed.{blank_row};
ghost use Rattle.dep_requests.specs.Clauses.{CarriesOut, MakesOf, PutsIn};
ghost use Rattle.dep_requests.specs.Reported.{ReportsNumbers};

use crate::change::{Change, NumberedDeposit, NumberedFiles, touched_object};
use crate::new_files::put_new_files;
use crate::objects::{files_changed, texts_changed};
use dep_decisions::Deposit;
use dep_files::delete_files;
use dep_objects::{add_object, append_metadata, put_object, set_metadata};
use dep_operations::View;
use dep_tables::Statements;
use dep_types::{Metadata, ObjectRow, StoreFault};
use std::alloc::Global;

/// An ingested object never goes back.
pub(crate) fn ingested_by(row: ObjectRow, ingests: bool) -> ObjectRow
    ensures { result ≡ record row { ingested = row.ingested || ingests } }
{
    ObjectRow {
        ingested: row.ingested || ingests,
        ..row
    }
}

/// The row of an object that has nothing but a deposit of this change.
pub(crate) fn blank_row(view: &View, object: u64, ingested: bool) -> ObjectRow
    ensures { result ≡ blank_row view.now object ingested }
{
    ObjectRow {
        object,
        ingested,
        object_tag: view.next.change,
        metadata_tag: view.next.change,
        files_tag: view.next.change,
        changed: view.clock,
    }
}

/// The row of an object to which the deposit is added.
pub(crate) fn added_to(view: &View, row: ObjectRow, deposit: &Deposit) -> ObjectRow
    ensures { (s : State) (content : List ℕ) (n : ℕ) (o : Object) → ReportsNumbers view.now s
        → row ≡ object_row n o → result ≡ object_row n (appended s content deposit.now o) }
{
    match deposit {
        Deposit::Files(_) => files_changed(view, row),
        Deposit::Metadata(_) => texts_changed(view, row),
    }
}

// Picks what is put in an object by the deposit: files beside those that it has, or texts in the place of its own.
fn fill<T: Statements>(
    tx: &mut T,
    numbered: &NumberedDeposit<'_>,
    object: u64,
) -> Result<(), StoreFault>
    ensures map { PutsIn T.lenders T.state tx.old tx.new result numbered.now.change.now object
        numbered.now.deposit.now }
{
    let change = numbered.change;
    match numbered.deposit {
        Deposit::Files(files) => {
            let files = files.as_slice();
            put_new_files(tx, &NumberedFiles { change, files }, object)
        }
        Deposit::Metadata(metadata) => set_metadata(tx, change.alloc, object, metadata),
    }
}

/// Adds the row of a new object, under the next number, and puts the deposit in it.
pub(crate) fn create<T: Statements>(
    tx: &mut T,
    numbered: &NumberedDeposit<'_>,
    ingests: bool,
) -> Result<(), StoreFault>
    ensures map { CarriesOut T.lenders T.state tx.old tx.new result numbered.now.change.now
        (Create numbered.now.deposit.now ingests) }
{
    let change = numbered.change;
    let object = change.view.next.object;
    add_object(tx, &blank_row(change.view, object, ingests))?;
    fill(tx, numbered, object)
}

// The object has no metadata.
fn clear_metadata<T: Statements>(tx: &mut T, alloc: Global, object: u64) -> Result<(), StoreFault>
    ensures map { MakesOf T.lenders T.state tx.old tx.new result
        (λ o s. map.get s.objects object ≡ Some o)
        (λ o s. with_object s object (with_metadata o map.empty)) }
{
    set_metadata(tx, alloc, object, &Metadata::new(alloc))
}

/// Takes all from an object, whose row is that of a new one, and puts the deposit in it.
pub(crate) fn replace<T: Statements>(
    tx: &mut T,
    numbered: &NumberedDeposit<'_>,
    ingests: bool,
) -> Result<(), StoreFault>
    ensures map { (n : ℕ) → CarriesOut T.lenders T.state tx.old tx.new result numbered.now.change.now
        (Replace n numbered.now.deposit.now ingests) }
{
    let change = numbered.change;
    let row = ingested_by(touched_object(change.view)?, ingests);
    delete_files(tx, change.alloc, row.object)?;
    clear_metadata(tx, change.alloc, row.object)?;
    put_object(tx, &blank_row(change.view, row.object, row.ingested))?;
    fill(tx, numbered, row.object)
}

/// Writes the row of an object that is there, and puts the deposit beside what it has.
pub(crate) fn append<T: Statements>(
    tx: &mut T,
    numbered: &NumberedDeposit<'_>,
    ingests: bool,
) -> Result<(), StoreFault>
    ensures map { (n : ℕ) → CarriesOut T.lenders T.state tx.old tx.new result numbered.now.change.now
        (Append n numbered.now.deposit.now ingests) }
{
    let change = numbered.change;
    let row = ingested_by(touched_object(change.view)?, ingests);
    put_object(tx, &added_to(change.view, row, numbered.deposit))?;
    match numbered.deposit {
        Deposit::Files(files) => {
            let files = files.as_slice();
            put_new_files(tx, &NumberedFiles { change, files }, row.object)
        }
        Deposit::Metadata(metadata) => append_metadata(tx, change.alloc, row.object, metadata),
    }
}
