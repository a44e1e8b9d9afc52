//! Objects and files that a deposit makes or replaces, as replies show them, known without a look at the
//! tables.

ghost use Rattle.std.specs.Prelude.{◌≡◌, ℕ, Bool, IfOk};
ghost use Rattle.dep_types.specs.Rows.{object_row};
ghost use Rattle.dep_types.specs.State.{State, Object};
ghost use Rattle.dep_decisions.specs.Effects.{blank};
ghost use Rattle.dep_decisions.specs.declared.decision.Deposit.TheVariants.{Files};
ghost use Rattle.dep_requests.specs.Changed.{new_rows};
ghost use Rattle.dep_requests.specs.Known.{ReportsNumbered, ShowsFile, ShowsFilled};
ghost use Rattle.dep_requests.specs.Reported.{ReportsDeposit, ReportsNewFile, ReportsObject};

use crate::change::{Change, NumberedDeposit, NumberedFiles, touched_object};
use crate::new_files::{FileNumbers, row_of};
use dep_answers::Shown;
use dep_decisions::{Deposit, NewFile};
use dep_types::{FileRow, List, Metadata, ObjectRow, ObjectView, StoreFault};

// The rows of the files of a new object, under the next numbers in their order.
fn new_rows(numbered: &NumberedFiles<'_>, object: u64) -> Result<List<FileRow>, StoreFault>
    ensures reported { (s : State) → ReportsDeposit numbered.now.change.now s (Files numbered.now.files.now)
        → IfOk result (λ rows.
        rows ≡ new_rows s numbered.now.change.now.content.now object numbered.now.files.now) }
{
    let change = numbered.change;
    let files = numbered.files;
    let mut rows = Vec::new(change.alloc);
    'files: for (index, new) in files.iter().enumerate() {
        let numbers = FileNumbers {
            object,
            file: change.view.next.file + index as u64,
        };
        let row = row_of(change, numbers, new, index)?;
        rows.push(row)?;
    }
    Ok(List::from_vec(rows))
}

/// What is shown of the object of this row and its files, once it has this deposit alone.
pub(crate) fn filled_view(
    numbered: &NumberedDeposit<'_>,
    row: ObjectRow,
) -> Result<Option<Shown>, StoreFault>
    ensures reported { (s : State) (n : ℕ) (ingested : Bool)
        → ReportsNumbered numbered.now s → row ≡ object_row n (blank s ingested)
        → IfOk result (ShowsFilled s numbered.now.change.now numbered.now.deposit.now n ingested) }
{
    let change = numbered.change;
    match numbered.deposit {
        Deposit::Files(files) => {
            let files = files.as_slice();
            let rows = new_rows(&NumberedFiles { change, files }, row.object)?;
            Ok(Some(Shown::Files(ObjectView {
                object: row,
                metadata: Metadata::new(change.alloc),
                files: rows,
                sha512s: List::empty(change.alloc),
            })))
        }
        Deposit::Metadata(_) => Ok(Some(Shown::Files(ObjectView {
            object: row,
            metadata: Metadata::new(change.alloc),
            files: List::empty(change.alloc),
            sha512s: List::empty(change.alloc),
        }))),
    }
}

/// What is shown of the file of the object that is touched, once it is the content of the request.
pub(crate) fn replaced_file(
    change: &Change<'_>,
    file: u64,
    new: &NewFile,
) -> Result<Option<Shown>, StoreFault>
    ensures reported { (s : State) (n : ℕ) (o : Object) → ReportsNewFile change.now s 0 new.now.source
        → ReportsObject change.now.view.now s n o
        → IfOk result (ShowsFile s change.now new.now n file) }
{
    let object = touched_object(change.view)?.object;
    let row = row_of(change, FileNumbers { object, file }, new, 0)?;
    Ok(Some(Shown::File(row)))
}
