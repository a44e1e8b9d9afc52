//! Replies that are sent over an outlet.
ghost use Rattle.std.specs.Prelude.{◌≡◌, ℕ, None, Some, IfSome};
ghost use Rattle.dep_types.specs.Writing.{HasRisen};
ghost use Rattle.dep_types.specs.declared.config.Config.{Config};
ghost use Rattle.dep_message.specs.Stream.{Item};
ghost use Rattle.dep_exchange.specs.Sending.{SendsOver, SendsReady, SendsReply, outside_of, fault_reply};
ghost use Rattle.dep_exchange.specs.Making.{MakesItem};
ghost use Rattle.dep_exchange.specs.Owing.{Owing};
ghost use Rattle.dep_exchange.specs.Serving.{Answers, BeginsSource};

use crate::access_log::AccessLog;
use crate::archive::Archive;
use crate::contents::Contents;
use crate::rest::Rest;
use dep_answers::Performed;
use dep_types::{Outlet, StoreFault, WriteFailed};

/// How an item was answered.
#[derive(Clone, Copy)]
pub enum Answered {
    /// Its reply was sent.
    Sent,
    /// A fixed reply was sent in its place.
    GaveUp,
    /// What was sent is a part of a reply.
    CutShort,
}

const WANT_OF_MEMORY: &[u8] =
    b"HTTP/1.1 503 Service Unavailable\r\nContent-Length: 0\r\nConnection: close\r\n\r\n";

const STORE_FAULT: &[u8] =
    b"HTTP/1.1 500 Internal Server Error\r\nContent-Length: 0\r\nConnection: close\r\n\r\n";

// The status and the fixed reply for a fault (RFC 9110, sections 15.6.1 and 15.6.4).
fn fixed_reply(fault: StoreFault) -> (u16, &'static [u8])
    ensures { result.1.now ≡ fault_reply fault }
{
    match fault {
        StoreFault::Store => (500, STORE_FAULT),
        StoreFault::Memory => (503, WANT_OF_MEMORY),
    }
}

/// Sends the fixed reply for a fault.
pub(crate) fn send_fault<O: Outlet, L: AccessLog>(
    fault: StoreFault,
    out: &mut O,
    log: &mut L,
) -> Answered
    ensures { SendsOver (O.taken out.old) (O.taken out.new)
        (O.failures out.old) (O.failures out.new) (fault_reply fault) result }
{
    let (status, fixed) = fixed_reply(fault);
    log.reply(status, None);
    match out.write(fixed) {
        Ok(()) => Answered::GaveUp,
        Err(WriteFailed) => Answered::CutShort,
    }
}

/// Sends an item's own reply.
pub(crate) fn send<O: Outlet>(out: &mut O, reply: &[u8]) -> Answered
    ensures sends { SendsReply (O.taken out.old) (O.taken out.new) reply.now result }
    ensures kept { result ≡ Answered.Sent → O.failures out.new ≡ O.failures out.old }
    ensures cause { result ≡ Answered.CutShort
        → HasRisen (O.failures out.old) (O.failures out.new) }
{
    match out.write(reply) {
        Ok(()) => Answered::Sent,
        Err(WriteFailed) => Answered::CutShort,
    }
}

/// Sends the reply to an item, or the fixed one for its fault. It returns what is sent later.
pub(crate) fn send_step<A: Archive, O: Outlet, L: AccessLog>(
    store: &mut A,
    step: Result<Performed, StoreFault>,
    contents: Contents,
    out: &mut O,
    log: &mut L,
) -> (Answered, Option<Rest>)
    ensures owing { (config : Config) (item : Item) (moment : ℕ) (before : A)
        → MakesItem config item moment (A.condition before) (A.condition store.old) step
        → Owing O.Outlet out.old out.new (A.condition store.new) result.1 (λ new.
        Answers config (outside_of O.Outlet out.old (A.condition before)) new item moment result.0) }
    ensures begins { (config : Config) (item : Item) (moment : ℕ) (before : A)
        → MakesItem config item moment (A.condition before) (A.condition store.old) step
        → IfSome result.1 (BeginsSource config item moment (A.condition before) (A.condition store.new)) }
    ensures at_once { contents ≡ Contents.AtOnce → result.1 ≡ None }
{
    match step {
        Ok(performed) => {
            let answered = send_performed(store, &performed, contents, out, log);
            drop(performed);
            answered
        }
        Err(fault) => (send_fault(fault, out, log), None),
    }
}

// Sends what is ready: its front as one write, and the content of a file behind it, now or later. It returns what is
// sent later.
fn send_performed<A: Archive, O: Outlet, L: AccessLog>(
    store: &mut A,
    performed: &Performed,
    contents: Contents,
    out: &mut O,
    log: &mut L,
) -> (Answered, Option<Rest>)
    ensures owing { Owing O.Outlet out.old out.new (A.condition store.new) result.1 (λ new.
        SendsReady (outside_of O.Outlet out.old (A.condition store.old)) new performed.now result.0) }
    ensures begins { IfSome result.1 (λ r. performed.now.stored ≡ Some r.file) }
    ensures at_once { contents ≡ Contents.AtOnce → result.1 ≡ None }
{
    log.reply(performed.status.number(), performed.refusal);
    match send(out, performed.front.as_slice()) {
        Answered::Sent => match performed.stored {
            Some(it) => match contents.deliver(store, it, out) {
                Ok(rest) => (Answered::Sent, rest),
                Err(_) => (Answered::CutShort, None),
            },
            None => (Answered::Sent, None),
        },
        answered => (answered, None),
    }
}
