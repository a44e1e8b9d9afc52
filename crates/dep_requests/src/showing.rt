//! Requests that are answered by what is cached, and what the reply to one that only reads lets be cached.

ghost use Rattle.std.specs.Prelude.{◌≡◌, false, Some, IsTrue, IfOk, ◌↔◌};
ghost use Rattle.dep_types.specs.State.{State};
ghost use Rattle.dep_types.specs.Sound.{IsSound};
ghost use Rattle.dep_fields.specs.Fit.{AreFit};
ghost use Rattle.dep_answers.specs.ReadSets.{read_set_at};
ghost use Rattle.dep_answers.specs.Steps.{is_head};
ghost use Rattle.dep_operations.specs.Rulings.{IsRuling};
ghost use Rattle.dep_requests.specs.Caching.{IsCacheOf, ReadsService, service_view, IsShown, is_plain_read};

use crate::caching::Cache;
use crate::performing::{Done, accept, delivery_at};
use dep_answers::{Performed, ReadSet, Service, Shown, StoredFile, refused};
use dep_decisions::{Operation, content_purpose};
use dep_fields::Field;
use dep_operations::{Ruling, View, decide};
use dep_types::{List, Method, Resource, StoreFault, Target};
use std::alloc::Global;

/// Whether the request reads the service document.
pub(crate) fn reads_service(operation: &Operation<'_>) -> bool
    ensures { IsTrue result ↔ ReadsService operation.now }
{
    matches!(operation.target.resource, Resource::Service) && operation.target.method.is_safe()
}

/// What such a request touches of the archive: the clock and the counters.
fn view_service(alloc: Global, cache: &Cache) -> View
    ensures { result ≡ service_view cache.now.clock cache.now.next }
{
    View {
        clock: cache.clock,
        next: cache.next,
        object: None,
        file: None,
        has_path: false,
        uploads: List::empty(alloc),
        repeats: None,
        references: None,
    }
}

/// Spells the reply to such a request.
fn reply_service(
    alloc: Global,
    service: &Service,
    operation: &Operation<'_>,
    cache: &Cache,
    ruling: &Ruling,
) -> Result<Performed, StoreFault>
    requires { ReadsService operation.now }
    ensures { AreFit operation.now.fields → (s : State) → IsSound s → IsCacheOf cache.now s
        → IsRuling service.now s operation.now ruling.now
        → IfOk result (IsShown service.now operation.now s) }
{
    let delivery = delivery_at(cache.clock, operation);
    match ruling {
        Ruling::Refuse(refusal) => refused(alloc, *refusal, None, delivery),
        Ruling::Do(_) => accept(alloc, service, operation, &Shown::Nothing, delivery),
    }
}

/// Returns the reply to a request that reads the service document.
pub fn show_service(
    alloc: Global,
    service: &Service,
    operation: &Operation<'_>,
    cache: &Cache,
) -> Result<Performed, StoreFault>
    requires { ReadsService operation.now }
    ensures { AreFit operation.now.fields → (s : State) → IsSound s → IsCacheOf cache.now s
        → IfOk result (IsShown service.now operation.now s) }
{
    let view = view_service(alloc, cache);
    let purpose = content_purpose(operation);
    let decided = decide(alloc, service.config(), &view, operation, purpose);
    drop(view);
    let ruling = decided?;
    let performed = reply_service(alloc, service, operation, cache, &ruling);
    drop(ruling);
    performed
}

/// What is read to show what is asked for, or in a bare reply for its length.
pub(crate) fn read_set_to_show(target: &Target) -> ReadSet
    ensures { result ≡ read_set_at target.now.resource (is_head target.now.method) }
{
    ReadSet::shown_by(&target.resource, target.method == Method::Head)
}

/// What the reply to a request lists of what was there before it, as far as that is known by its head: what is read to show
/// what is asked for, and the files of an object that is posted to.
pub(crate) fn read_set_to_list(target: &Target) -> ReadSet {
    match (target.method, &target.resource) {
        (Method::Get | Method::Head, _) => read_set_to_show(target),
        (Method::Post, Resource::Object(object)) => ReadSet::Files(*object),
        _ => ReadSet::Nothing,
    }
}

/// Whether the request only reads, not all the texts or files of an object, and its head speaks of no content that would be
/// kept.
pub fn is_plain_read(operation: &Operation<'_>) -> bool
    ensures { result ≡ is_plain_read operation.now }
{
    operation.target.method.is_safe()
        && matches!(operation.fields.disposition, Field::Absent | Field::Bad)
        && matches!(operation.fields.content_type, Field::Absent | Field::Bad)
        && !read_set_to_show(&operation.target).reads_many_rows()
}

/// The file whose content the reply has, where the request only reads.
pub fn file_shown(operation: &Operation<'_>, done: &Done) -> Option<StoredFile>
    ensures reported { (it : StoredFile) → result ≡ Some it → IsTrue (is_plain_read operation.now)
        × (done.now.has_changes ≡ false) × (done.now.performed.stored ≡ Some it) }
    ensures known { IsTrue (is_plain_read operation.now) → done.now.has_changes ≡ false
        → result ≡ done.now.performed.stored }
{
    if !done.has_changes && is_plain_read(operation) {
        done.performed.stored
    } else {
        None
    }
}
