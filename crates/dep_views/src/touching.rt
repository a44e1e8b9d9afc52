//! What a request touches of the archive.
ghost use Rattle.std.specs.Prelude.{◌≡◌, IfOk, Some, None, option_map};
ghost use Rattle.std.specs.Option.{option_copied};
ghost use Rattle.dep_decisions.specs.Decisions.{references_in};
ghost use Rattle.dep_decisions.specs.Kinds.{content_kind};
ghost use Rattle.dep_decisions.specs.Purposes.{kind_for};
ghost use Rattle.dep_operations.specs.Views.{file_in, object_in, path_in, segment_in, touched_by, uploads_looked_up, uploads_named};

use dep_decisions::{Operation, Purpose};
use dep_docs_in::{DocFault, Pointed, Reference, ReferencesAhead};
use dep_operations::{SegmentId, Touched};
use dep_types::{Config, List, Octets, Resource};
use std::alloc::{AllocError, Global};

/// Returns the numbers at which a request looks at the archive, whose content is for this purpose
/// (`content_purpose`). A document of references is read here, unless it was read ahead: its references are taken out
/// then. An `Err` is lack of memory.
pub fn touches(
    alloc: Global,
    ahead: &mut ReferencesAhead,
    config: &Config,
    operation: &Operation<'_>,
    purpose: Option<Purpose<'_>>,
) -> Result<Touched, AllocError>
    requires { option_map kind_for purpose ≡ content_kind operation.now }
    ensures ok { IfOk result (λ touched. touched ≡ touched_by config.now operation.now) }
{
    let resource = &operation.target.resource;
    let path = path_in(alloc, resource)?;
    let references = references_for(alloc, ahead, config, operation, purpose)?;
    let uploads = uploads_in(alloc, resource, references.as_ref())?;
    Ok(Touched {
        object: object_in(resource),
        file: file_in(resource),
        path,
        uploads,
        segment: segment_in(resource, purpose),
        references,
    })
}

// The references in a content of this purpose, where it is a document of them that can be read.
#[tactic(auto, unfolding(dep_decisions::specs::Decisions::references_in))]
fn references_for(
    alloc: Global,
    ahead: &mut ReferencesAhead,
    config: &Config,
    operation: &Operation<'_>,
    purpose: Option<Purpose<'_>>,
) -> Result<Option<List<Reference>>, AllocError>
    requires { option_map kind_for purpose ≡ content_kind operation.now }
    ensures { IfOk result (λ references. references ≡ references_in config.now operation.now) }
{
    let Some(Purpose::References) = purpose else {
        return Ok(None);
    };
    match ahead.take(alloc, config, operation.content.as_slice()) {
        Ok(references) => Ok(Some(references)),
        Err(DocFault::Malformed) => Ok(None),
        Err(DocFault::Memory) => Err(AllocError),
    }
}

fn object_in(resource: &Resource) -> Option<u64>
    ensures { result ≡ object_in resource.now }
{
    match *resource {
        Resource::Object(object)
        | Resource::Metadata(object)
        | Resource::FileSet(object)
        | Resource::File(object, _)
        | Resource::BagList(object)
        | Resource::BagFile(object, _) => Some(object),
        Resource::Service | Resource::Staging | Resource::Upload(_) => None,
    }
}

fn file_in(resource: &Resource) -> Option<u64>
    ensures { result ≡ file_in resource.now }
{
    match *resource {
        Resource::File(_, file) => Some(file),
        _ => None,
    }
}

fn path_in(alloc: Global, resource: &Resource) -> Result<Option<Octets>, AllocError>
    ensures { IfOk result (λ path. path ≡ path_in resource.now) }
{
    match resource {
        Resource::BagFile(_, path) => Ok(Some(Octets::copied(alloc, path.as_slice())?)),
        _ => Ok(None),
    }
}

// The segment of a Temporary-URL's upload that a content of this purpose is sent as.
fn segment_in(resource: &Resource, purpose: Option<Purpose<'_>>) -> Option<SegmentId>
    ensures { result ≡ segment_in resource.now (option_map kind_for purpose.entry) }
{
    match (resource, purpose) {
        (Resource::Upload(upload), Some(Purpose::Segment(number))) => Some(SegmentId {
            upload: *upload,
            number,
        }),
        _ => None,
    }
}

// The upload of a Temporary-URL, or those that the entries point at.
fn uploads_in(
    alloc: Global,
    resource: &Resource,
    references: Option<&List<Reference>>,
) -> Result<List<u64>, AllocError>
    ensures { IfOk result
        (λ uploads. uploads ≡ uploads_looked_up resource.now (option_copied references.entry)) }
{
    match (resource, references) {
        (Resource::Upload(upload), _) => Ok(List::from_vec(vec![in alloc; *upload]?)),
        (_, Some(references)) => uploads_named(alloc, references.as_slice()),
        (_, None) => Ok(List::empty(alloc)),
    }
}

// The uploads that the entries point at, in their order.
fn uploads_named(alloc: Global, references: &[Reference]) -> Result<List<u64>, AllocError>
    ensures { IfOk result (λ uploads. uploads ≡ uploads_named references.now) }
{
    let mut uploads = Vec::new(alloc);
    for reference in references {
        if let Pointed::Upload(upload) = reference.target {
            uploads.push(upload)?;
        }
    }
    Ok(List::from_vec(uploads))
}
