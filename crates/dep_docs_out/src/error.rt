//! The error document.
ghost use Rattle.dep_docs_out.specs.Made.{MakesItems, MakesText};
ghost use Rattle.dep_docs_out.specs.Documents.{error_document, log_of};

use crate::document::{CONTEXT, Document};
use crate::urls::numbered;
use dep_moment::Moment;
use dep_types::Refusal;
use std::alloc::{AllocError, Global};

/// Returns the error document of SWORD 3.0: why a request was refused, at the moment of the server's clock.
pub fn error_doc(alloc: Global, refusal: Refusal, clock: Moment) -> Result<Vec<u8>, AllocError>
    ensures { MakesItems result (error_document refusal clock) }
{
    let mut document = Document::begun(alloc)?;
    document.text("@context", CONTEXT);
    document.text("@type", refusal.name());
    document.text("error", refusal.text());
    document.made_text("log", log_text(alloc, refusal));
    document.moment("timestamp", clock);
    document.ended()
}

// The log: the number of the refusal.
fn log_text(alloc: Global, refusal: Refusal) -> Result<String, AllocError>
    ensures { MakesText result (log_of refusal) }
{
    numbered(
        String::from_str(alloc, "refusal ")?,
        u64::from(refusal.number()),
    )
}
