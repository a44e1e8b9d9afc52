//! What a method and a path name.
ghost use Rattle.std.specs.Prelude.{◌≡◌, ◌<◌, [], length, drop, Some, IfErr, OnOk};
ghost use Rattle.std.specs.String.{string_bytes};
ghost use Rattle.matchit.specs.declared.error.InsertError.TheVariants.{OutOfMemory};
ghost use Rattle.dep_router.specs.Pages.{routes};
ghost use Rattle.dep_router.specs.Places.{EndsWithPlace, resource_at};
ghost use Rattle.dep_router.specs.Targets as spec;
ghost use Rattle.dep_router.specs.Targets.{target, segments, resource_of};

use crate::bag_paths::decoded_from;
use crate::methods::{Allow, method_at};
use crate::pages::{PAGES, Page};
use crate::reading::{PathPlace, place_of_page};
use dep_types::{Octets, Resource, Target};
use matchit::{InsertError, Router};
use std::alloc::{AllocError, Global};
use std::marker::Model;

/// The resource and the method that a request names, or why it names none.
#[derive(Drop)]
pub enum Routed {
    /// A resource, and a method that it has.
    To(Target),
    /// There is no such resource.
    NotFound,
    /// The resource hasn't this method, but these.
    NotAllowed(Allow),
}

/// The routes of the server: which resources there are, at which paths, and which methods they have. They are the same
/// in every value, so contracts see nothing of it.
#[derive(Drop)]
pub struct Routes {
    router: Router<Page>,
}

impl Model for Routes {
    ghost use Rattle.std.specs.Prelude.{◌≡◌, ⊤};
    ghost use Rattle.dep_router.specs.Pages.{routes};

    ghost Value = { ⊤ };

    ghost view = { λ r. tt };

    ghost invariant = { λ r. r.router ≡ routes };
}

impl Routes {
    /// The routes. Memory is taken here alone.
    pub fn new(alloc: Global) -> Result<Routes, AllocError> {
        let mut router = Router::new(alloc);
        match add_routes(&mut router) {
            Ok(()) => Ok(Routes { router }),
            Err(_) => Err(AllocError),
        }
    }

    /// The resource that a path names, whatever the method. The path has no query, and is compared byte by byte:
    /// letters in another case or a slash at its end make another path, and nothing is decoded but the path within a
    /// bag, once. That is done where the path stands, which is why it is taken over: no memory is taken.
    pub fn resource(&self, path: String) -> Option<Resource>
        ensures { result ≡ resource_of (segments (string_bytes path)) }
    {
        match self.place(&path)? {
            PathPlace::Resource(resource) => Some(resource),
            PathPlace::InBag(object, end) => {
                let start = path.len() - end.len();
                Some(bag_file(object, path.into_bytes(), start))
            }
        }
    }

    /// What a method and a path name. It takes no memory.
    #[tactic(auto, unfolding(crate::specs::Targets::target))]
    pub fn route(&self, method: &[u8], path: String) -> Routed
        ensures { result ≡ target method.now (string_bytes path) }
    {
        let Some(resource) = self.resource(path) else {
            return Routed::NotFound;
        };
        match method_at(&resource, method) {
            Some(method) => Routed::To(Target { resource, method }),
            None => Routed::NotAllowed(Allow::of(&resource)),
        }
    }

    fn place<'p>(&self, path: &'p str) -> Option<PathPlace<'p>>
        ensures named { resource_at result ≡ resource_of (segments path.now) }
        ensures ends { EndsWithPlace path.now result }
    {
        match self.router.at(path) {
            Ok(found) => place_of_page(*found.value, &found.params),
            Err(_) => None,
        }
    }
}

// A file in the bag of an object, whose path starts at this place.
fn bag_file(object: u64, path: Vec<u8>, start: usize) -> Resource
    requires { start < length path.items }
    ensures { Some result ≡ spec.bag_file object (drop start path.items) }
{
    Resource::BagFile(object, Octets::from_vec(decoded_from(path, start)))
}

// Adds the routes of the profile. None of them is misspelled and no two conflict, so only memory can be wanted.
fn add_routes(router: &mut Router<Page>) -> Result<(), InsertError>
    requires { router.old ≡ [] }
    ensures ok { OnOk result (router.new ≡ routes) }
    ensures err { IfErr result (λ e. e ≡ OutOfMemory) }
{
    for page in &PAGES {
        router.insert(page.route(), *page)?;
    }
    Ok(())
}
