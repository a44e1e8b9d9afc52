//! What a decision makes of the tables.

ghost use Rattle.std.specs.Prelude.{◌≡◌, Ok, IsTrue};
ghost use Rattle.dep_types.specs.Numbers.{room_for};
ghost use Rattle.dep_decisions.specs.Decisions.{numbers_for};
ghost use Rattle.dep_decisions.specs.Effects.{effect_of};
ghost use Rattle.dep_decisions.specs.declared.decision.Decision.TheVariants.{Show};
ghost use Rattle.dep_requests.specs.Clauses.{CarriesOut, MakesState};
ghost use Rattle.dep_requests.specs.Reported.{IsAccepted};

use crate::change::{Change, NumberedDeposit, NumberedFiles};
use crate::deposits::{append, create, replace};
use crate::new_files::{set_file, set_files};
use crate::objects::{complete, drop_file, drop_object, set_texts};
use crate::uploads::{open, receive};
use dep_decisions::{Decision, numbers_for};
use dep_fixity::HashedOctets;
use dep_operations::View;
use dep_staging::drop_upload;
use dep_tables::{StateRow, Statements, write_state};
use dep_types::StoreFault;
use std::alloc::Global;

/// Makes of the tables what an accepted request's decision makes of the state: first of the maps, then of the clock and
/// the counters. The view is true of the state where the request touches it, and the content is that of the request.
/// Nothing is hashed: the digests of a posted content stand in the decision, and those of uploads in the view. A number
/// of 2^63 or more is a fault of the store, and so is that something is not there which the rules have seen. Where
/// nothing is changed, no statement is run.
pub fn carry_out<T: Statements>(
    tx: &mut T,
    alloc: Global,
    view: &View,
    decision: &Decision,
    content: &HashedOctets,
) -> Result<(), StoreFault>
    requires { IsTrue (room_for view.now.next (numbers_for decision.now)) }
    ensures map { MakesState T.lenders T.state tx.old tx.new result
        (λ s. IsAccepted s view.now content.now decision.now)
        (λ s. effect_of s content.now decision.now) }
    ensures untouched { decision.now ≡ Show → (result ≡ Ok tt) × (tx.new ≡ tx.old) }
{
    let change = Change {
        alloc,
        view,
        content,
    };
    change_maps(tx, &change, decision)?;
    let next = view.next.after_taking(&numbers_for(decision));
    if next == view.next {
        return Ok(());
    }
    write_state(
        tx,
        &StateRow {
            clock: view.clock,
            next,
        },
    )
}

// Picks the change of the objects and the uploads by the decision. It is apart from `carry_out`, as what thirteen calls
// did would be lost where they join before another.
fn change_maps<T: Statements>(
    tx: &mut T,
    change: &Change<'_>,
    decision: &Decision,
) -> Result<(), StoreFault>
    requires { IsTrue (room_for change.now.view.now.next (numbers_for decision.now)) }
    ensures map { CarriesOut T.lenders T.state tx.old tx.new result change.now decision.now }
    ensures untouched { decision.now ≡ Show → (result ≡ Ok tt) × (tx.new ≡ tx.old) }
{
    match decision {
        Decision::Show => Ok(()),
        Decision::Create { deposit, ingests } => {
            create(tx, &NumberedDeposit { change, deposit }, *ingests)
        }
        Decision::Append {
            deposit,
            ingests,
            ..
        } => append(tx, &NumberedDeposit { change, deposit }, *ingests),
        Decision::Replace {
            deposit,
            ingests,
            ..
        } => replace(tx, &NumberedDeposit { change, deposit }, *ingests),
        Decision::Complete { .. } => complete(tx, change),
        Decision::SetMetadata { metadata, .. } => set_texts(tx, change, metadata),
        Decision::SetFiles { files, .. } => {
            let files = files.as_slice();
            set_files(tx, &NumberedFiles { change, files })
        }
        Decision::SetFile { file, new, .. } => set_file(tx, change, *file, new),
        Decision::DropFile { file, .. } => drop_file(tx, change, *file),
        Decision::DropObject { object } => drop_object(tx, change.alloc, *object),
        Decision::Open(opening) => open(tx, change, opening),
        Decision::Receive { segment, .. } => receive(tx, change, *segment),
        Decision::DropUpload { upload } => drop_upload(tx, *upload),
    }
}
