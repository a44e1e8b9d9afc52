//! Replies to requests that are accepted.
ghost use Rattle.std.specs.Prelude.{◌≡◌, IfOk, IfSome};
ghost use Rattle.dep_types.specs.State.{State};
ghost use Rattle.dep_types.specs.Sound.{IsSound};
ghost use Rattle.dep_answers.specs.Performing.{HasEnd, Says};
ghost use Rattle.dep_answers.specs.Replies.{shown_answer};
ghost use Rattle.dep_answers.specs.Steps.{is_head};
ghost use Rattle.dep_answers.specs.ReadSets.{shown_at, read_set_at};
ghost use Rattle.dep_answers.specs.Reporting.{SaysShown};
ghost use Rattle.dep_answers.specs.Reported.{reported_change, reported_text};

use crate::answer::{Answer, ReplyText};
use crate::bags::{bag_list, bag_reply};
use crate::objects::{created, metadata, put, status};
use crate::performed::{Delivery, Performed};
use crate::read_set::Shown;
use crate::service::Service;
use crate::stored::file_reply;
use crate::uploads::{opened, upload};
use dep_reply::Status;
use dep_types::{Config, Method, Resource, Target};
use std::alloc::{AllocError, Global};

/// Returns the reply to a request that was accepted and carried out, by what the archive then shows at its
/// [`ReadSet`](crate::Subject) (RFC 9110, section 15.3; SWORD 3.0). A reply to a HEAD, and no other, is delivered bare:
/// it is that to the GET without its body, so that less may have been read for it. It is `None` where the reply would
/// have nothing to show, though it had to give a length: for a resource that has no GET, where nothing was read, and
/// where a damaged table gave numbers of segments that don't rise from 1 on. An `Err` is lack of memory.
pub fn accepted(
    alloc: Global,
    service: &Service,
    target: &Target,
    shown: &Shown,
    delivery: Delivery,
) -> Result<Option<Performed>, AllocError>
    requires { delivery.is_head_only ≡ is_head target.now.method }
    ensures says { IfOk result
        (SaysShown service.now target.now shown.now delivery) }
    ensures ends { IfOk result (λ said. IfSome said HasEnd) }
{
    if target.method.is_safe() {
        return show(alloc, service, &target.resource, shown, delivery);
    }
    changed(alloc, service.config(), target, shown)?.say(alloc, delivery)
}

// What a resource shows.
fn show(
    alloc: Global,
    service: &Service,
    resource: &Resource,
    shown: &Shown,
    delivery: Delivery,
) -> Result<Option<Performed>, AllocError>
    ensures says { IfOk result (λ said. (s : State) → IsSound s
        → shown.now ≡ shown_at s (read_set_at resource.now delivery.is_head_only)
        → Says s (shown_answer service.now s resource.now) delivery said) }
    ensures ends { IfOk result (λ said. IfSome said HasEnd) }
{
    match resource {
        Resource::File(..) => file_reply(alloc, shown, delivery),
        Resource::BagFile(_, path) => bag_reply(alloc, shown, path.as_slice(), delivery),
        _ => text(alloc, service, resource, shown)?.say(alloc, delivery),
    }
}

// What a resource shows that isn't the content of a file.
fn text(
    alloc: Global,
    service: &Service,
    resource: &Resource,
    shown: &Shown,
) -> Result<Answer, AllocError>
    ensures { IfOk result (λ a. a ≡ reported_text service.now resource.now shown.now) }
{
    match resource {
        Resource::Service => {
            let document = service.document().to_vec(alloc)?;
            Ok(Answer::showing(Status::Ok, ReplyText::document(document)))
        }
        Resource::Object(_) => status(alloc, service.config(), shown),
        Resource::Metadata(_) => metadata(alloc, service.config(), shown),
        Resource::Upload(_) => upload(alloc, service.config(), shown),
        Resource::BagList(_) => bag_list(alloc, shown),
        _ => Ok(Answer::without_content(Status::Ok)),
    }
}

// The answer to a POST, a PUT and a DELETE.
fn changed(
    alloc: Global,
    config: &Config,
    target: &Target,
    shown: &Shown,
) -> Result<Answer, AllocError>
    ensures { IfOk result (λ a.
        a ≡ reported_change config.now target.now.method target.now.resource shown.now) }
{
    match (target.method, &target.resource) {
        (Method::Post, Resource::Service) => created(alloc, config, shown),
        (Method::Post | Method::Put, Resource::Object(_)) => status(alloc, config, shown),
        (Method::Post, Resource::Staging) => opened(alloc, config, shown),
        (Method::Put, resource) => Ok(put(resource, shown)),
        _ => Ok(Answer::without_content(Status::NoContent)),
    }
}
