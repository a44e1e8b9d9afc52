//! Answers that show staged uploads.
ghost use Rattle.std.specs.Prelude.{◌≡◌, IfOk};
ghost use Rattle.dep_answers.specs.Reported.{reported_upload, reported_opened, ordered_upload};

use crate::answer::{Answer, ReplyText};
use crate::read_set::Shown;
use dep_docs_out::{upload_doc, upload_url};
use dep_reply::Status;
use dep_types::{Config, List, Text, UploadRow};
use std::alloc::{AllocError, Global};

/// The document of a staged upload (SWORD 3.0, segmented upload).
pub(crate) fn upload(alloc: Global, config: &Config, shown: &Shown) -> Result<Answer, AllocError>
    ensures { IfOk result (λ a. a ≡ reported_upload config.now shown.now) }
{
    let Shown::Upload { upload, received } = shown else {
        return Ok(Answer::without_content(Status::Ok));
    };
    Ok(Answer {
        status: Status::Ok,
        content: document(alloc, config, upload, received)?,
        tag: None,
        location: None,
        allow: None,
    })
}

/// The same for an upload that was opened, with its URL.
pub(crate) fn opened(alloc: Global, config: &Config, shown: &Shown) -> Result<Answer, AllocError>
    ensures { IfOk result (λ a. a ≡ reported_opened config.now shown.now) }
{
    let Shown::Upload { upload, received } = shown else {
        return Ok(Answer::without_content(Status::Created));
    };
    let location = Text::new(upload_url(alloc, config, upload.upload)?);
    match document(alloc, config, upload, received) {
        Ok(content) => Ok(Answer {
            status: Status::Created,
            content,
            tag: None,
            location: Some(location),
            allow: None,
        }),
        Err(error) => {
            drop(location);
            Err(error)
        }
    }
}

// The document, unless a damaged table gave numbers that aren't in order.
fn document(
    alloc: Global,
    config: &Config,
    upload: &UploadRow,
    received: &List<u64>,
) -> Result<Option<ReplyText>, AllocError>
    ensures { IfOk result
        (λ content. content ≡ ordered_upload config.now upload.now received.now) }
{
    match upload_doc(alloc, config, upload, received.as_slice())? {
        Some(document) => Ok(Some(ReplyText::document(document))),
        None => Ok(None),
    }
}
