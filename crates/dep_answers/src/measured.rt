//! Replies that say how long a content is, of which nothing is read.
ghost use Rattle.std.specs.Prelude.{◌≡◌, IfOk, IfSome};
ghost use Rattle.dep_reply.specs.Head.{head_text};
ghost use Rattle.dep_answers.specs.Performing.{HasEnd, measured_head};
ghost use Rattle.dep_answers.specs.Reporting.{SaysLength};

use crate::answer::Form;
use crate::performed::{Delivery, Performed};
use dep_reply::{Reply, Status, spell_head};
use std::alloc::{AllocError, Global};

/// Returns the reply to a HEAD of a plain text that has so many bytes (RFC 9110, section 9.3.2). It is to be delivered bare.
/// There always is one: it is a `Some` so that callers return it as it is.
pub(crate) fn measured_reply(
    alloc: Global,
    size: u64,
    delivery: Delivery,
) -> Result<Option<Performed>, AllocError>
    ensures says { IfOk result (SaysLength size delivery) }
    ensures ends { IfOk result (λ said. IfSome said HasEnd) }
{
    Ok(Some(Performed {
        status: Status::Ok,
        refusal: None,
        front: measured_front(alloc, Form::PlainText.media(), size, None, delivery)?,
        stored: None,
    }))
}

/// Spells the head of a reply 200 whose content has this media type and so many bytes, and perhaps this entity tag.
pub(crate) fn measured_front(
    alloc: Global,
    media: &str,
    size: u64,
    tag: Option<u64>,
    delivery: Delivery,
) -> Result<Vec<u8>, AllocError>
    ensures { IfOk result (λ front. front.items
        ≡ head_text (measured_head media.now size tag delivery)) }
{
    let head = Reply {
        status: Status::Ok,
        date: delivery.clock,
        content_type: Some(media),
        content_length: Some(size),
        tag,
        location: None,
        allow: None,
        closes: delivery.closes,
    };
    spell_head(alloc, &head)
}
