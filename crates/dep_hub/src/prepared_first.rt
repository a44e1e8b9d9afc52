//! Which requests are prepared before they are answered.
ghost use Rattle.std.specs.Prelude.{◌≡◌, IfOk};
ghost use Rattle.dep_hub.specs.Preparing as spec;
ghost use Rattle.dep_hub.specs.Preparing.{many_rows_shown_by};

use dep_answers::ReadSet;
use dep_exchange::Site;
use dep_fields::{SwordFields, is_by_reference};
use dep_head::Head;
use dep_router::Routed;
use dep_types::{Method, Resource};
use std::alloc::{AllocError, Global};

/// Whether a request is prepared first: it deposits by reference, or its reply is made of all the texts of an object's
/// metadata or of all its files. An `Err` is lack of memory.
pub(crate) fn is_prepared_first(site: &Site, head: &Head) -> Result<bool, AllocError>
    ensures { IfOk result (λ is. is ≡ spec.is_prepared_first head.now) }
{
    if names_uploads(site.alloc(), head)? {
        return Ok(true);
    }
    shows_many_rows(site, head)
}

// Whether it deposits by reference (SWORD 3.0, by-reference deposit): a POST or a PUT whose Content-Disposition says so.
fn names_uploads(alloc: Global, head: &Head) -> Result<bool, AllocError>
    ensures { IfOk result (λ named. named ≡ spec.names_uploads head.now) }
{
    let method = head.method();
    if method != b"POST".as_slice() && method != b"PUT".as_slice() {
        return Ok(false);
    }
    let fields = SwordFields::read(alloc, head)?;
    let is_named = is_by_reference(&fields.disposition);
    drop(fields);
    Ok(is_named)
}

// Whether it is a GET, a HEAD or a POST with such a reply. The path of another isn't routed.
#[tactic(auto, using(crate::proofs::ManyRowLemmas::no_many_rows))]
fn shows_many_rows(site: &Site, head: &Head) -> Result<bool, AllocError>
    ensures { IfOk result (λ shown. shown ≡ spec.shows_many_rows head.now) }
{
    let method = head.method();
    if method != b"GET".as_slice() && method != b"HEAD".as_slice() && method != b"POST".as_slice() {
        return Ok(false);
    }
    let path = String::from_str(site.alloc(), head.path())?;
    let routed = site.routes.route(method, path);
    let are_shown = are_many_rows_shown_by(&routed);
    drop(routed);
    Ok(are_shown)
}

// Whether they are shown by the reply to what a request names.
fn are_many_rows_shown_by(routed: &Routed) -> bool
    ensures { result ≡ many_rows_shown_by routed.now }
{
    match routed {
        Routed::To(target) => match target.method {
            Method::Get => ReadSet::shown_by(&target.resource, false).reads_many_rows(),
            Method::Head => ReadSet::shown_by(&target.resource, true).reads_many_rows(),
            Method::Post => matches!(target.resource, Resource::Object(_)),
            Method::Put | Method::Delete => false,
        },
        Routed::NotFound | Routed::NotAllowed(_) => false,
    }
}
