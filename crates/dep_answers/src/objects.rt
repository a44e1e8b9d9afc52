//! Answers that show objects and uploads.
ghost use Rattle.std.specs.Prelude.{◌≡◌, IfOk, None};
ghost use Rattle.dep_answers.specs.Answers.{answer};
ghost use Rattle.dep_answers.specs.Reported.{reported_status, reported_created, reported_metadata, reported_tag};

use crate::answer::{Answer, ReplyText};
use crate::read_set::Shown;
use dep_docs_out::{metadata_doc, object_url, status_doc};
use dep_reply::Status;
use dep_types::{Config, Resource, Text};
use std::alloc::{AllocError, Global};

/// The status document of an object (SWORD 3.0), with its entity tag.
pub(crate) fn status(alloc: Global, config: &Config, shown: &Shown) -> Result<Answer, AllocError>
    ensures { IfOk result (λ a. a ≡ reported_status config.now shown.now) }
{
    let Shown::Files(view) = shown else {
        return Ok(Answer::without_content(Status::Ok));
    };
    Ok(Answer {
        status: Status::Ok,
        content: Some(ReplyText::document(status_doc(alloc, config, view)?)),
        tag: Some(view.object.object_tag),
        location: None,
        allow: None,
    })
}

/// The same for an object that was made, with its URL.
pub(crate) fn created(alloc: Global, config: &Config, shown: &Shown) -> Result<Answer, AllocError>
    ensures { IfOk result (λ a. a ≡ reported_created config.now shown.now) }
{
    let Shown::Files(view) = shown else {
        return Ok(Answer::without_content(Status::Created));
    };
    let location = Text::new(object_url(alloc, config, view.object.object)?);
    match status_doc(alloc, config, view) {
        Ok(document) => Ok(Answer {
            status: Status::Created,
            content: Some(ReplyText::document(document)),
            tag: Some(view.object.object_tag),
            location: Some(location),
            allow: None,
        }),
        Err(error) => {
            drop(location);
            Err(error)
        }
    }
}

/// The metadata document of an object (SWORD 3.0), with its entity tag.
pub(crate) fn metadata(alloc: Global, config: &Config, shown: &Shown) -> Result<Answer, AllocError>
    ensures { IfOk result (λ a. a ≡ reported_metadata config.now shown.now) }
{
    let Shown::Metadata { object, metadata } = shown else {
        return Ok(Answer::without_content(Status::Ok));
    };
    let document = metadata_doc(alloc, config, object.object, metadata)?;
    Ok(Answer {
        status: Status::Ok,
        content: Some(ReplyText::document(document)),
        tag: Some(object.metadata_tag),
        location: None,
        allow: None,
    })
}

/// Nothing but the entity tag of a part that was put in its place.
pub(crate) fn put(resource: &Resource, shown: &Shown) -> Answer
    ensures { result ≡ answer 204 None (reported_tag resource.now shown.now) None }
{
    Answer {
        status: Status::NoContent,
        content: None,
        tag: tag_of(resource, shown),
        location: None,
        allow: None,
    }
}

fn tag_of(resource: &Resource, shown: &Shown) -> Option<u64>
    ensures { result ≡ reported_tag resource.now shown.now }
{
    match (resource, shown) {
        (Resource::Metadata(_), Shown::ObjectRow(row)) => Some(row.metadata_tag),
        (Resource::FileSet(_), Shown::ObjectRow(row)) => Some(row.files_tag),
        (Resource::File(..), Shown::File(row)) => Some(row.tag),
        _ => None,
    }
}
