//! One arrival: the items that are complete now are answered in order.
ghost use Rattle.std.specs.Prelude.{◌≡◌, ◌≢◌, None, IfSome};
ghost use Rattle.dep_exchange.specs.Sending.{outside_of};
ghost use Rattle.dep_exchange.specs.Serving.{BeginsFirst, ServesOver, KeepsIntake, arrival_with};
ghost use Rattle.dep_exchange.specs.Owing.{Owing};
ghost use Rattle.dep_exchange.specs.Nexts.{TakesNext, ReportsLackOfMemory, arrived_after, next_behind, reading_behind};

use crate::access_log::{AccessLog, NoLog};
use crate::archive::Archive;
use crate::arrived::Arrived;
use crate::contents::Contents;
use crate::next::Next;
use crate::rest::Rest;
use crate::sending::{Answered, send_fault, send_step};
use crate::site::{Context, Site};
use crate::step::{StreamRefusal, answer_continue, step_fault, step_message};
use dep_message::{Intake, Step};
use dep_moment::Moment;
use dep_types::{Outlet, StoreFault};
use std::alloc::AllocError;

/// A piece of a connection's stream, and when it came.
#[derive(Clone, Copy)]
pub struct Piece<'a> {
    /// Its bytes.
    pub bytes: &'a [u8],
    /// When it came.
    pub moment: Moment,
}

/// Takes the piece, and answers each item that is complete with it.
pub fn serve<A: Archive, O: Outlet>(
    site: &Site,
    store: &mut A,
    intake: &mut Intake,
    piece: &Piece<'_>,
    out: &mut O,
) -> Arrived
    ensures served { ServesOver site.now
        (arrival_with intake.old piece.now)
        (outside_of O.Outlet out.old (A.condition store.old))
        (outside_of O.Outlet out.new (A.condition store.new)) intake.new.place result }
    ensures keeps { KeepsIntake intake.old intake.new }
    ensures there { result ≢ Arrived.NoSuch }
{
    if let Err(AllocError) = intake.feed(piece.bytes) {
        return give_up(intake, out, &mut NoLog);
    }
    let context = Context {
        site,
        moment: piece.moment,
        contents: Contents::AtOnce,
    };
    loop {
        let (next, _) = take_next(&context, store, intake, out, &mut NoLog);
        match next {
            Next::More => {}
            _ => return arrived(next),
        }
    }
}

// How an arrival returns this, where no item is answered any more.
fn arrived(next: Next) -> Arrived
    ensures { result ≡ arrived_after next }
{
    match next {
        Next::More | Next::Waiting => Arrived::Open,
        Next::Closed => Arrived::Closed,
        Next::Cut => Arrived::Cut,
        Next::NoSuch => Arrived::NoSuch,
    }
}

/// Answers the next item, where one is complete. It returns how the connection then stands, which is never `NoSuch`, and
/// what of a content behind the reply is to be sent later.
pub fn take_next<A: Archive, O: Outlet, L: AccessLog>(
    context: &Context<'_>,
    store: &mut A,
    intake: &mut Intake,
    out: &mut O,
    log: &mut L,
) -> (Next, Option<Rest>)
    ensures owing { Owing O.Outlet out.old out.new (A.condition store.new) result.1 (λ new.
        TakesNext context.now.site.now intake.old intake.new context.now.moment
        (outside_of O.Outlet out.old (A.condition store.old)) new result.0) }
    // What is sent later is what the item asks for.
    ensures begins { IfSome result.1 (BeginsFirst context.now.site.now
        intake.old context.now.moment (A.condition store.old) (A.condition store.new)) }
    ensures at_once { context.now.contents ≡ Contents.AtOnce → result.1 ≡ None }
{
    match intake.next() {
        Err(AllocError) => {
            let answer = send_fault(StoreFault::Memory, out, log);
            (next_after(intake, answer, true), None)
        }
        Ok(Step::NeedMore) => (Next::Waiting, None),
        Ok(Step::Dead) => (Next::Closed, None),
        Ok(Step::Refused(refusal, is_head_only)) => {
            let fault = StreamRefusal {
                refusal,
                is_head_only,
            };
            let step = step_fault(context, store, fault);
            let (answer, rest) = send_step(store, step, context.contents, out, log);
            (next_after(intake, answer, true), rest)
        }
        Ok(Step::Continue100) => {
            let answer = answer_continue(store, out);
            (next_after(intake, answer, false), None)
        }
        Ok(Step::Message(message, is_last)) => {
            let step = step_message(context, store, message, is_last, log);
            let (answer, rest) = send_step(store, step, context.contents, out, log);
            (next_after(intake, answer, is_last), rest)
        }
    }
}

// What comes after an item. Another follows where the whole reply was sent, and the item isn't the last; else nothing is
// read any more.
fn next_after(intake: &mut Intake, answer: Answered, is_last: bool) -> Next
    ensures next { result ≡ next_behind answer is_last }
    ensures read { intake.new ≡ reading_behind intake.old result }
{
    let next = match answer {
        Answered::Sent if !is_last => return Next::More,
        Answered::CutShort => Next::Cut,
        _ => Next::Closed,
    };
    intake.shut();
    next
}

/// Ends a connection for lack of memory: the fixed reply for it is sent, and nothing is read any more.
pub fn give_up<O: Outlet, L: AccessLog>(intake: &mut Intake, out: &mut O, log: &mut L) -> Arrived
    ensures { ReportsLackOfMemory (O.taken out.old) (O.taken out.new)
        (O.failures out.old) (O.failures out.new) intake.old intake.new result }
{
    let answer = send_fault(StoreFault::Memory, out, log);
    arrived(next_after(intake, answer, true))
}
