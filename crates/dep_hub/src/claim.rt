//! What requests have to do with contents that are sent in steps.
ghost use Rattle.std.specs.Prelude.{◌≡◌, IfOk};
ghost use Rattle.dep_hub.specs.Claims as spec;
ghost use Rattle.dep_hub.specs.Claims.{claim_by, has_file, read_claim, taken_of};

use dep_bag::file_number;
use dep_exchange::Site;
use dep_head::Head;
use dep_router::Routed;
use dep_types::{Method, Resource};
use std::alloc::AllocError;

/// Files of an object.
#[derive(Clone, Copy)]
pub(crate) enum Files {
    /// One: the object's number, then its own.
    One(u64, u64),
    /// All of the object with this number.
    All(u64),
}

/// What a request has to do with contents that are sent in steps.
#[derive(Clone, Copy)]
pub(crate) enum Claim {
    /// It puts or deletes files.
    Takes(Files),
    /// It gets the content of a file: the object's number, then the file's.
    Reads(u64, u64),
    /// It leaves all files as they are, and gets no content of one.
    Neither,
}

impl Files {
    /// Whether the file is one of these.
    pub fn has(self, object: u64, file: u64) -> bool
        ensures { result ≡ has_file self object file }
    {
        match self {
            Files::One(its_object, its_file) => its_object == object && its_file == file,
            Files::All(its_object) => its_object == object,
        }
    }
}

/// The claim of the request with this head. An `Err` is lack of memory.
pub(crate) fn claim_of(site: &Site, head: &Head) -> Result<Claim, AllocError>
    ensures { IfOk result (λ claim. claim ≡ spec.claim_of head.now) }
{
    let path = String::from_str(site.alloc(), head.path())?;
    let routed = site.routes.route(head.method(), path);
    let claim = claim_for(&routed);
    drop(routed);
    Ok(claim)
}

// The claim of what a request names.
fn claim_for(routed: &Routed) -> Claim
    ensures { result ≡ claim_by routed.now }
{
    match routed {
        Routed::To(target) => match target.method {
            Method::Put | Method::Delete => taken_with(&target.resource),
            Method::Get => read_at(&target.resource),
            Method::Head | Method::Post => Claim::Neither,
        },
        Routed::NotFound | Routed::NotAllowed(_) => Claim::Neither,
    }
}

fn taken_with(resource: &Resource) -> Claim
    ensures { result ≡ taken_of resource.now }
{
    match resource {
        Resource::Object(object) | Resource::FileSet(object) => Claim::Takes(Files::All(*object)),
        Resource::File(object, file) => Claim::Takes(Files::One(*object, *file)),
        _ => Claim::Neither,
    }
}

fn read_at(resource: &Resource) -> Claim
    ensures { result ≡ read_claim resource.now }
{
    match resource {
        Resource::File(object, file) => Claim::Reads(*object, *file),
        Resource::BagFile(object, path) => match file_number(path.as_slice()) {
            Some(file) => Claim::Reads(*object, file),
            None => Claim::Neither,
        },
        _ => Claim::Neither,
    }
}
