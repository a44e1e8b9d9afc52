//! What an accepted request asks for, as its content is read.
ghost use Rattle.std.specs.Prelude.{◌≡◌, IfOk, IfSome, Some, option_map, unwrap_or};
ghost use Rattle.std.specs.Option.{option_copied};
ghost use Rattle.dep_fixity.specs.Fixity.{digests_of};
ghost use Rattle.dep_decisions.specs.Asked.{IsContentRead, deposited_in, dropped_at, filed_at, received_in, referred_at, undeposited_in};
ghost use Rattle.dep_decisions.specs.Decisions.{assembled_file, behalf_of, decision_with, ingests, posted_file, referred_files};
ghost use Rattle.dep_decisions.specs.Kinds.{content_kind};
ghost use Rattle.dep_decisions.specs.Purposes.{kind_for};
ghost use Rattle.dep_decisions.specs.declared.decision.Decision.TheVariants.{Show};
ghost use Rattle.dep_decisions.specs.declared.decision.Deposit.TheVariants.{Files, Metadata as MetadataOf};

use crate::decision::{ContentSource, Decision, Deposit, NewFile};
use crate::operation::Operation;
use crate::purpose::{Purpose, is_completion, is_true};
use dep_docs_in::{DEFAULT_MEDIA, Pointed, Reference};
use dep_fields::Field;
use dep_fixity::Digests;
use dep_types::{List, Metadata, Method, Resource, Text};
use std::alloc::{AllocError, Global};

/// What was read of a content.
#[derive(Drop)]
pub struct ReadContent {
    /// The metadata, where it is a metadata document that can be read.
    pub metadata: Option<Metadata>,
    /// Its digests, where they were needed.
    pub digests: Option<Digests>,
}

/// Returns what a request asks for, by what its content is for, with the references in it where it deposits by
/// reference. The content is hashed only where it is a file whose digests aren't known yet. An `Err` is want of
/// memory.
pub fn decision_on(
    alloc: Global,
    operation: &Operation<'_>,
    purpose: Option<Purpose<'_>>,
    references: Option<&List<Reference>>,
    read: ReadContent,
) -> Result<Decision, AllocError>
    requires purpose { option_map kind_for purpose ≡ content_kind operation.now }
    requires read { IsContentRead operation.now read }
    ensures { IfOk result (λ d. d ≡ decision_with (option_copied references.entry) operation.now) }
{
    match purpose {
        Some(purpose) => decision_for(alloc, operation, purpose, references, read),
        None => {
            drop(read);
            Ok(undeposited(alloc, operation))
        }
    }
}

// Where there is a content.
fn decision_for(
    alloc: Global,
    operation: &Operation<'_>,
    purpose: Purpose<'_>,
    references: Option<&List<Reference>>,
    read: ReadContent,
) -> Result<Decision, AllocError>
    requires purpose { Some (kind_for purpose) ≡ content_kind operation.now }
    requires read { IsContentRead operation.now read }
    ensures { IfOk result (λ d. d ≡ decision_with (option_copied references.entry) operation.now) }
{
    match purpose {
        Purpose::File(name) => {
            let digests = read.digests;
            drop(read);
            filed(alloc, operation, name, digests)
        }
        Purpose::Metadata => Ok(described(operation, read.metadata)),
        Purpose::References => {
            drop(read);
            referred(alloc, operation, references)
        }
        Purpose::Opening(opening) => {
            drop(read);
            Ok(Decision::Open(opening))
        }
        Purpose::Segment(segment) => {
            drop(read);
            Ok(received(&operation.target.resource, segment))
        }
    }
}

// What the content asks for as a file of this name.
fn filed(
    alloc: Global,
    operation: &Operation<'_>,
    name: &Text,
    digests: Option<Digests>,
) -> Result<Decision, AllocError>
    requires { IfSome digests (λ d. d ≡ digests_of operation.now.content) }
    ensures { IfOk result (λ d. d ≡ filed_at operation.now name.now) }
{
    let new = posted_file(alloc, operation, name, digests)?;
    match operation.target.resource {
        Resource::File(object, file) => Ok(Decision::SetFile { object, file, new }),
        _ => Ok(deposited(operation, Deposit::Files(List::one(alloc, new)?))),
    }
}

// What the metadata asks for that was read, where it was.
fn described(operation: &Operation<'_>, metadata: Option<Metadata>) -> Decision
    ensures { result ≡ unwrap_or (option_map
        (λ texts. deposited_in (ingests operation.now) (MetadataOf texts)
        operation.now.target.resource operation.now.target.method)
        metadata) Show }
{
    match metadata {
        Some(metadata) => deposited(operation, Deposit::Metadata(metadata)),
        None => Decision::Show,
    }
}

// What the uploads ask for that the references point at, where there are references.
fn referred(
    alloc: Global,
    operation: &Operation<'_>,
    references: Option<&List<Reference>>,
) -> Result<Decision, AllocError>
    ensures { IfOk result (λ d. d ≡ unwrap_or (option_map
        (λ entries. referred_at operation.now entries)
        (option_copied references.entry)) Show) }
{
    match references {
        Some(references) => {
            let files = referred_files(alloc, operation, references.as_slice())?;
            Ok(deposited(operation, Deposit::Files(files)))
        }
        None => Ok(Decision::Show),
    }
}

// What a deposit makes of the resource. The object becomes ingested unless In-Progress is true.
fn deposited(operation: &Operation<'_>, deposit: Deposit) -> Decision
    ensures { result ≡ deposited_in (ingests operation.now) deposit
        operation.now.target.resource operation.now.target.method }
{
    let ingests = !is_true(&operation.fields.in_progress);
    match (&operation.target.resource, deposit) {
        (Resource::Service, deposit) => Decision::Create { deposit, ingests },
        (Resource::Object(object), deposit) => match operation.target.method {
            Method::Post => Decision::Append {
                object: *object,
                deposit,
                ingests,
            },
            _ => Decision::Replace {
                object: *object,
                deposit,
                ingests,
            },
        },
        (Resource::Metadata(object), Deposit::Metadata(metadata)) => Decision::SetMetadata {
            object: *object,
            metadata,
        },
        (Resource::FileSet(object), Deposit::Files(files)) => Decision::SetFiles {
            object: *object,
            files,
        },
        _ => Decision::Show,
    }
}

// The segment is received by the upload.
fn received(resource: &Resource, segment: u64) -> Decision
    ensures { result ≡ received_in segment resource.now }
{
    match *resource {
        Resource::Upload(upload) => Decision::Receive { upload, segment },
        _ => Decision::Show,
    }
}

// What is asked for where there is no content of a kind.
fn undeposited(alloc: Global, operation: &Operation<'_>) -> Decision
    ensures { result ≡ undeposited_in operation.now
        operation.now.target.resource operation.now.target.method }
{
    match (operation.target.method, &operation.target.resource) {
        (Method::Post, Resource::Object(object)) if is_completion(operation) => {
            Decision::Complete { object: *object }
        }
        (Method::Delete, resource) => dropped(alloc, resource),
        _ => Decision::Show,
    }
}

// What a DELETE asks for.
fn dropped(alloc: Global, resource: &Resource) -> Decision
    ensures { result ≡ dropped_at resource.now }
{
    match *resource {
        Resource::Object(object) => Decision::DropObject { object },
        Resource::Metadata(object) => Decision::SetMetadata {
            object,
            metadata: Metadata::new(alloc),
        },
        Resource::FileSet(object) => Decision::SetFiles {
            object,
            files: List::empty(alloc),
        },
        Resource::File(object, file) => Decision::DropFile { object, file },
        Resource::Upload(upload) => Decision::DropUpload { upload },
        _ => Decision::Show,
    }
}

// The content itself as a file.
fn posted_file(
    alloc: Global,
    operation: &Operation<'_>,
    name: &Text,
    digests: Option<Digests>,
) -> Result<NewFile, AllocError>
    requires { IfSome digests (λ d. d ≡ digests_of operation.now.content) }
    ensures { IfOk result (λ file. file ≡ posted_file operation.now name.now) }
{
    let media = match &operation.fields.content_type {
        Field::Value(media) => media.as_str(),
        _ => DEFAULT_MEDIA,
    };
    let digests = match digests {
        Some(digests) => digests,
        None => operation.content.digests(),
    };
    new_file(
        alloc,
        operation,
        name.as_str(),
        media,
        ContentSource::Posted(digests),
    )
}

// A file with this name and type, on behalf of whom the request names.
fn new_file(
    alloc: Global,
    operation: &Operation<'_>,
    name: &str,
    media: &str,
    source: ContentSource,
) -> Result<NewFile, AllocError>
    ensures { IfOk result (λ file. file ≡ record {
      name = name.now;
      media = media.now;
      source = source;
      behalf = behalf_of operation.now;
    }) }
{
    let behalf = match &operation.fields.on_behalf_of {
        Field::Value(behalf) => Some(Text::copied(alloc, behalf.as_str())?),
        _ => None,
    };
    Ok(NewFile {
        name: Text::copied(alloc, name)?,
        media: Text::copied(alloc, media)?,
        source,
        behalf,
    })
}

// The uploads that the entries point at, as files.
fn referred_files(
    alloc: Global,
    operation: &Operation<'_>,
    references: &[Reference],
) -> Result<List<NewFile>, AllocError>
    ensures { IfOk result (λ files. files ≡ referred_files operation.now references.now) }
{
    let mut files = Vec::new(alloc);
    for reference in references {
        if let Pointed::Upload(upload) = reference.target {
            files.push(assembled_file(alloc, operation, reference, upload)?)?;
        }
    }
    Ok(List::from_vec(files))
}

// An upload as a file.
fn assembled_file(
    alloc: Global,
    operation: &Operation<'_>,
    reference: &Reference,
    upload: u64,
) -> Result<NewFile, AllocError>
    ensures { IfOk result (λ file. file ≡ assembled_file operation.now reference.now upload) }
{
    new_file(
        alloc,
        operation,
        reference.name.as_str(),
        reference.media.as_str(),
        ContentSource::Assembled(upload),
    )
}
