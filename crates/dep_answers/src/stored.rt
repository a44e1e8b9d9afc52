//! Replies with the content of a stored file.
ghost use Rattle.std.specs.Prelude.{◌≡◌, IfOk, IfSome, Some, None, ℕ, List, length};
ghost use Rattle.dep_types.specs.State.{State};
ghost use Rattle.dep_answers.specs.Performing.{HasEnd, Says, stored_behind, file_of_row};
ghost use Rattle.dep_answers.specs.ReadSets.{shown_at};
ghost use Rattle.dep_answers.specs.Reported.{file_answer};
ghost use Rattle.dep_answers.specs.Reporting.{SaysContent};
ghost use Rattle.dep_answers.specs.declared.performed.FileId.{FileId as AFileId};
ghost use Rattle.dep_answers.specs.declared.read_set.ReadSet.TheVariants.{File};

use crate::measured::measured_front;
use crate::performed::{Delivery, Performed, StoredFile};
use crate::read_set::Shown;
use dep_reply::Status;
use dep_types::FileRow;
use std::alloc::{AllocError, Global};

/// Returns the reply that shows a file, with its entity tag, where one was read.
pub(crate) fn file_reply(
    alloc: Global,
    shown: &Shown,
    delivery: Delivery,
) -> Result<Option<Performed>, AllocError>
    ensures says { IfOk result (λ said. (s : State) (id : AFileId) → shown.now ≡ shown_at s (File id)
        → Says s (file_answer s id) delivery said) }
    ensures ends { IfOk result (λ said. IfSome said HasEnd) }
{
    match shown {
        Shown::File(row) => stored_reply(alloc, row, Some(row.tag), delivery),
        _ => Ok(None),
    }
}

/// Returns the reply that shows the content of the file with this row, under its own media type and perhaps
/// with an entity tag. No byte of the content is read. There always is one: it is a `Some` so that callers return
/// it as it is.
pub(crate) fn stored_reply(
    alloc: Global,
    row: &FileRow,
    tag: Option<u64>,
    delivery: Delivery,
) -> Result<Option<Performed>, AllocError>
    ensures says { IfOk result (SaysContent row.now tag delivery) }
    ensures ends { IfOk result (λ said. IfSome said HasEnd) }
{
    Ok(Some(Performed {
        status: Status::Ok,
        refusal: None,
        front: measured_front(alloc, row.media.as_str(), row.size, tag, delivery)?,
        stored: content_behind(row, delivery.is_head_only),
    }))
}

// The content of the file, unless the reply has no body or the file is empty.
fn content_behind(row: &FileRow, is_head_only: bool) -> Option<StoredFile>
    ensures { (content : List ℕ) → length content ≡ row.now.size
        → result ≡ stored_behind is_head_only content (file_of_row row.now) }
{
    if is_head_only || row.size == 0 {
        None
    } else {
        Some(StoredFile {
            object: row.object,
            file: row.file,
            size: row.size,
        })
    }
}
