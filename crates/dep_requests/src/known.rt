//! What the reply to a request shows, where that is known without a look at the tables.

ghost use Rattle.std.specs.Prelude.{◌≡◌, ℕ, List, IfOk, IsTrue};
ghost use Rattle.dep_types.specs.Numbers.{room_for};
ghost use Rattle.dep_types.specs.State.{State};
ghost use Rattle.dep_decisions.specs.Decisions.{numbers_for};
ghost use Rattle.dep_requests.specs.Known.{known_row, known_shown};
ghost use Rattle.dep_requests.specs.Reported.{IsAccepted};

use crate::change::{Change, NumberedDeposit, touched_object};
use crate::created::{filled_view, replaced_file};
use crate::deposits::{added_to, blank_row, ingested_by};
use crate::objects::{completed, files_changed, texts_changed};
use dep_answers::Shown;
use dep_decisions::Decision;
use dep_fixity::HashedOctets;
use dep_operations::View;
use dep_types::{ObjectRow, StoreFault};
use std::alloc::Global;

/// What the reply shows of what was decided, once it is carried out, where all of that is known: an object that is made or
/// replaced, the row of one whose metadata or files are put in their place, and that of a file. No statement is run: rows,
/// numbers and digests stand in the view and in the decision. It fails for lack of memory alone.
pub fn known_after(
    alloc: Global,
    view: &View,
    decision: &Decision,
    content: &HashedOctets,
) -> Result<Option<Shown>, StoreFault>
    requires { IsTrue (room_for view.now.next (numbers_for decision.now)) }
    ensures reported { (s : State) → IsAccepted s view.now content.now decision.now
        → IfOk result (λ known. known ≡ known_shown s content.now decision.now) }
{
    let change = &Change {
        alloc,
        view,
        content,
    };
    match decision {
        Decision::Create { deposit, ingests } => {
            let row = blank_row(view, view.next.object, *ingests);
            filled_view(&NumberedDeposit { change, deposit }, row)
        }
        Decision::Replace {
            deposit,
            ingests,
            ..
        } => {
            let was = ingested_by(touched_object(view)?, *ingests);
            let row = blank_row(view, was.object, was.ingested);
            filled_view(&NumberedDeposit { change, deposit }, row)
        }
        Decision::SetMetadata { .. } => {
            let row = touched_object(view)?;
            Ok(Some(Shown::ObjectRow(texts_changed(view, row))))
        }
        Decision::SetFiles { .. } => {
            let row = touched_object(view)?;
            Ok(Some(Shown::ObjectRow(files_changed(view, row))))
        }
        Decision::SetFile { file, new, .. } => replaced_file(change, *file, new),
        _ => Ok(None),
    }
}

/// The row of the object that is touched, once what was decided is carried out, where it is known: of an object that is only
/// shown, that is added to, or that becomes ingested. No statement is run.
pub fn row_after(view: &View, decision: &Decision) -> Option<ObjectRow>
    ensures { (s : State) (content : List ℕ) → IsAccepted s view.now content decision.now
        → result ≡ known_row s content view.now decision.now }
{
    let row = view.object?;
    match decision {
        Decision::Show => Some(row),
        Decision::Append {
            deposit,
            ingests,
            ..
        } => Some(added_to(view, ingested_by(row, *ingests), deposit)),
        Decision::Complete { .. } => Some(completed(view, row)),
        _ => None,
    }
}
