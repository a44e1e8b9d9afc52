//! Requests that are prepared before they are answered: the uploads that they name are hashed, or the texts or files that
//! they show read, in steps.
ghost use Rattle.std.specs.Prelude.{◌≡◌, true};
ghost use Rattle.dep_hub.specs.Preparing.{MakesStepFor, Works, is_preparing};

use crate::connections::Connection;
use crate::rest::Behind;
use dep_decisions::Operation;
use dep_exchange::{Archive, Site};
use dep_fields::{IfMatch, SwordFields};
use dep_head::Head;
use dep_message::{Message, Preview, closes};
use dep_router::Routed;
use dep_types::Target;
use std::alloc::AllocError;

/// How many steps may be made for a request. A step hashes 16 blocks at most, a mebibyte, or reads some texts or files, so
/// these are far more than one needs.
pub(crate) const MOST_STEPS: u32 = 16_777_216;

/// Has an archive work ahead for a request.
#[derive(Drop)]
struct Ahead<'a, A> {
    site: &'a Site,
    store: &'a mut A,
    // What the archive returned, where it was asked.
    is_left: Option<bool>,
}

impl<'a, A: Archive> Preview for Ahead<'a, A> {
    ghost use Rattle.std.specs.Prelude.{◌≡◌, ◌⊎◌};
    ghost use Rattle.dep_hub.specs.Preparing.{WorksAs};

    ghost sees = { λ before after m. (after ≡ before)
        ⊎ ((after.store.ghost_name ≡ before.store.ghost_name)
        × WorksAs A.call_log A.may_commit A.condition before.store.now after.store.now after.is_left) };

    fn preview(&mut self, message: Message) -> Message {
        match read_operation(self.site, &message.head) {
            Some(named) => {
                let (message, is_left) = work_for(self.site, self.store, message, named);
                self.is_left = Some(is_left);
                message
            }
            None => message,
        }
    }
}

// What a request names, and its fields; or `None`, for one that names no resource, and where memory runs out.
fn read_operation(site: &Site, head: &Head) -> Option<(Target, SwordFields)> {
    let alloc = site.alloc();
    let Ok(path) = String::from_str(alloc, head.path()) else {
        return None;
    };
    match site.routes.route(head.method(), path) {
        Routed::To(target) => match SwordFields::read(alloc, head) {
            Ok(fields) => Some((target, fields)),
            Err(AllocError) => None,
        },
        _ => None,
    }
}

// Has the archive work ahead for a request, which comes back as it was.
fn work_for<A: Archive>(
    site: &Site,
    store: &mut A,
    message: Message,
    named: (Target, SwordFields),
) -> (Message, bool)
    ensures same { result.0 ≡ message }
    ensures works { Works A.call_log A.may_commit A.condition store.old store.new result.1 }
{
    let Message { head, content } = message;
    let (target, fields) = named;
    let operation = Operation {
        target,
        fields,
        if_match: IfMatch::read(&head),
        content,
        closes: closes(&head),
    };
    let is_left = store.work_ahead(site.service(), Some(&operation));
    let Operation {
        target,
        fields,
        if_match: _,
        content,
        closes: _,
    } = operation;
    drop(target);
    drop(fields);
    (Message { head, content }, is_left)
}

/// Makes a step for the next request of a connection that is prepared, and returns whether the archive has more to do.
pub(crate) fn prepare<A: Archive>(site: &Site, store: &mut A, connection: &mut Connection) -> bool
    requires { is_preparing connection.old.behind ≡ true }
    ensures works { Works A.call_log A.may_commit A.condition store.old store.new result }
    ensures number { connection.new.number ≡ connection.old.number }
    ensures intake { connection.new.intake ≡ connection.old.intake }
    ensures step { MakesStepFor connection.old.behind connection.new.behind }
{
    // The archive is asked where the request has come whole and can be read.
    let mut ahead = Ahead {
        site,
        store,
        is_left: None,
    };
    let _ = connection.intake.preview(&mut ahead);
    match ahead.is_left {
        Some(is_left) => {
            connection.behind = stepped(connection.behind, is_left);
            is_left
        }
        None => {
            connection.behind = Behind::Prepared;
            store.work_ahead(site.service(), None)
        }
    }
}

// What is behind a reply once a step was made for the next request, which may leave more to do.
fn stepped(behind: Behind, is_left: bool) -> Behind
    requires { is_preparing behind ≡ true }
    ensures { MakesStepFor behind result }
{
    match behind {
        Behind::Prepares(left) if is_left && left > 0 => Behind::Prepares(left - 1),
        _ => Behind::Prepared,
    }
}
