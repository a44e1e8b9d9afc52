//! Replies to requests that are refused.
ghost use Rattle.std.specs.Prelude.{IfOk, Some};
ghost use Rattle.std.specs.Option.{option_copied};
ghost use Rattle.dep_types.specs.State.{State};
ghost use Rattle.dep_types.specs.Refusals.{facts_of};
ghost use Rattle.dep_answers.specs.Performing.{HasStatus, IsReply};
ghost use Rattle.dep_answers.specs.Replies.{refused_answer};

use crate::answer::{Answer, ReplyText};
use crate::performed::{Delivery, Performed};
use dep_docs_out::error_doc;
use dep_reply::Status;
use dep_types::{Refusal, StoreFault};
use std::alloc::Global;

/// Returns the reply to a request that is refused, with the methods of the resource where one is not allowed
/// (RFC 9110, section 10.2.1). It shows the clock, and nothing of the archive. An `Err` is lack of memory.
pub fn refused(
    alloc: Global,
    refusal: Refusal,
    allow: Option<&'static str>,
    delivery: Delivery,
) -> Result<Performed, StoreFault>
    ensures says { IfOk result (λ p. (s : State) →
        IsReply s (refused_answer delivery.clock refusal (option_copied allow.entry)) delivery p) }
    ensures status { IfOk result (HasStatus (facts_of refusal).status (Some refusal)) }
{
    let answer = Answer {
        status: Status::from(refusal),
        content: Some(ReplyText::document(error_doc(alloc, refusal, delivery.clock)?)),
        tag: None,
        location: None,
        allow,
    };
    let reply = answer.spell(alloc, Some(refusal), delivery);
    drop(answer);
    Ok(reply?)
}
