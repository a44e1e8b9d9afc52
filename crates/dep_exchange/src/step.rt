//! One step of the machine, up to a reply that is ready, and `100 Continue`.
ghost use Rattle.std.specs.Prelude.{◌≡◌, ℕ, IfOk};
ghost use Rattle.std.specs.Option.{option_copied};
ghost use Rattle.dep_types.specs.State.{State};
ghost use Rattle.dep_types.specs.declared.config.Config.{Config as Settings};
ghost use Rattle.dep_message.specs.Heads.{closes};
ghost use Rattle.dep_message.specs.Stream.{Fault, Continue, Request};
ghost use Rattle.dep_answers.specs.Performing.{IsReady};
ghost use Rattle.dep_answers.specs.Steps.{operation_step, refused_step};
ghost use Rattle.dep_exchange.specs.Archives.{Always, MakesStep};
ghost use Rattle.dep_exchange.specs.Machine.{operation_of};
ghost use Rattle.dep_exchange.specs.Making.{MakesItem};
ghost use Rattle.dep_exchange.specs.Sending.{outside_of};
ghost use Rattle.dep_exchange.specs.Serving.{Answers};

use crate::access_log::AccessLog;
use crate::archive::Archive;
use crate::sending::{Answered, send};
use crate::site::{Context, Site};
use dep_answers::{Delivery, Performed, refused};
use dep_decisions::Operation;
use dep_fields::{IfMatch, SwordFields};
use dep_message::{Message, is_without_body};
use dep_moment::Moment;
use dep_router::Routed;
use dep_types::{Outlet, Refusal, StoreFault, Target};
use std::alloc::{AllocError, Global};

/// Why an item is refused before the archive is asked, and whether the reply has no body.
#[derive(Clone, Copy)]
pub(crate) struct StreamRefusal {
    pub refusal: Refusal,
    pub is_head_only: bool,
}

/// Makes the step of a whole message: the clock goes on, and then what the message asks for is done. It returns the reply,
/// which is ready to be sent. The connection is closed behind it where the message is the last.
pub(crate) fn step_message<A: Archive, L: AccessLog>(
    context: &Context<'_>,
    store: &mut A,
    message: Message,
    is_last: bool,
    log: &mut L,
) -> Result<Performed, StoreFault>
    requires { is_last ≡ closes message.head }
    ensures { MakesItem context.now.site.now (Request message) context.now.moment
        (A.condition store.old) (A.condition store.new) result }
{
    let length = message.content.as_slice().len() as u64;
    log.request(message.head.method(), message.head.path(), length);
    let site = context.site;
    let clock = match store.tick(site.service().config(), context.moment) {
        Ok(clock) => clock,
        Err(fault) => {
            drop(message);
            return Err(fault);
        }
    };
    let is_head_only = is_without_body(&message.head);
    let mut message = message;
    let path = message.head.take_path();
    match site.routes.route(message.head.method(), path) {
        Routed::To(target) => perform_at(site, store, message, target, is_last),
        Routed::NotFound => {
            drop(message);
            let why = StreamRefusal {
                refusal: Refusal::NotFound,
                is_head_only,
            };
            refuse(site.alloc(), clock, why, None, is_last)
        }
        Routed::NotAllowed(methods) => {
            drop(message);
            let why = StreamRefusal {
                refusal: Refusal::MethodNotAllowed,
                is_head_only,
            };
            refuse(site.alloc(), clock, why, Some(methods.as_str()), is_last)
        }
    }
}

/// Sends `100 Continue`, so that the client sends the body (RFC 9110, section 15.2.1). The clock stays.
pub(crate) fn answer_continue<A: Archive, O: Outlet>(store: &A, out: &mut O) -> Answered
    ensures { (config : Settings) (moment : ℕ) → Answers config
        (outside_of O.Outlet out.old (A.condition store.now))
        (outside_of O.Outlet out.new (A.condition store.now))
        Continue moment result }
{
    send(out, b"HTTP/1.1 100 Continue\r\n\r\n")
}

/// Makes the step of a fault of a stream: the clock goes on. It returns the reply, which is ready to be sent, and behind
/// which the connection is closed.
pub(crate) fn step_fault<A: Archive>(
    context: &Context<'_>,
    store: &mut A,
    fault: StreamRefusal,
) -> Result<Performed, StoreFault>
    ensures { MakesItem context.now.site.now (Fault fault.refusal fault.is_head_only) context.now.moment
        (A.condition store.old) (A.condition store.new) result }
{
    match store.tick(context.site.service().config(), context.moment) {
        Ok(clock) => refuse(context.site.alloc(), clock, fault, None, true),
        Err(store_fault) => Err(store_fault),
    }
}

// Performs the request that a message is, at its target.
fn perform_at<A: Archive>(
    site: &Site,
    store: &mut A,
    message: Message,
    target: Target,
    is_last: bool,
) -> Result<Performed, StoreFault>
    requires { is_last ≡ closes message.head }
    ensures { MakesStep (A.condition store.old) (A.condition store.new) Always
        (λ s. operation_step site.now s (operation_of message target)) result }
{
    let Message { head, content } = message;
    match SwordFields::read(site.alloc(), &head) {
        Ok(fields) => {
            let operation = Operation {
                target,
                fields,
                if_match: IfMatch::read(&head),
                content,
                closes: is_last,
            };
            let performed = store.perform(site.service(), &operation);
            drop(operation);
            drop(head);
            performed
        }
        Err(AllocError) => {
            drop(target);
            drop(content);
            drop(head);
            Err(StoreFault::Memory)
        }
    }
}

// The reply to an item that the archive isn't asked about, at this clock.
fn refuse(
    alloc: Global,
    clock: Moment,
    why: StreamRefusal,
    allow: Option<&'static str>,
    closes: bool,
) -> Result<Performed, StoreFault>
    ensures { IfOk result (λ p. (s : State) → clock ≡ s.clock → IsReady
        (refused_step s why.refusal (option_copied allow.entry) why.is_head_only closes) p) }
{
    let delivery = Delivery::new(clock, why.is_head_only, closes);
    refused(alloc, why.refusal, allow, delivery)
}
