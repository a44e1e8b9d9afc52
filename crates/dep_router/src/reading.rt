//! What a page names, by its parameters.
ghost use Rattle.std.specs.Prelude.{◌≡◌};
ghost use Rattle.matchit.specs.Params.{AllText};
ghost use Rattle.dep_router.specs.Pages.{named_parts, resource_by, object_resource_by, number_named as spec_number_named};
ghost use Rattle.dep_router.specs.Places.{IsPathOf, resource_at};

use crate::pages::Page;
use dep_octets::positive_decimal;
use dep_types::{GREATEST_NUMBER, Resource};
use matchit::Params;

/// What a path names, before the path of a file in a bag is decoded.
#[derive(Drop)]
pub(crate) enum PathPlace<'a> {
    /// A resource.
    Resource(Resource),
    /// A file in the bag of this object, with its path.
    InBag(u64, &'a str),
}

/// What a page names, by what its parameters took; `None` where the text of a number is no such number.
pub(crate) fn place_of_page<'p>(page: Page, params: &Params<'_, 'p>) -> Option<PathPlace<'p>>
    requires { AllText (named_parts params.now) }
    ensures named { resource_at result ≡ resource_by page (named_parts params.now) }
    ensures path { IsPathOf page (named_parts params.now) result }
{
    match page {
        Page::Service => Some(PathPlace::Resource(Resource::Service)),
        Page::Staging => Some(PathPlace::Resource(Resource::Staging)),
        Page::Upload => {
            let upload = number_named(params, "upload")?;
            Some(PathPlace::Resource(Resource::Upload(upload)))
        }
        _ => place_of_object(number_named(params, "object")?, page, params),
    }
}

// What a page names of an object: the object itself, or what stands behind it.
fn place_of_object<'p>(object: u64, page: Page, params: &Params<'_, 'p>) -> Option<PathPlace<'p>>
    requires { AllText (named_parts params.now) }
    ensures named { resource_at result ≡ object_resource_by page object (named_parts params.now) }
    ensures path { IsPathOf page (named_parts params.now) result }
{
    match page {
        Page::Object => Some(PathPlace::Resource(Resource::Object(object))),
        Page::Metadata => Some(PathPlace::Resource(Resource::Metadata(object))),
        Page::FileSet => Some(PathPlace::Resource(Resource::FileSet(object))),
        Page::BagList => Some(PathPlace::Resource(Resource::BagList(object))),
        Page::File => {
            let file = number_named(params, "file")?;
            Some(PathPlace::Resource(Resource::File(object, file)))
        }
        Page::BagFile => Some(PathPlace::InBag(object, params.get("path")?)),
        Page::Service | Page::Staging | Page::Upload => None,
    }
}

// The number that the parameter of this name took, as paths write it.
fn number_named(params: &Params<'_, '_>, name: &str) -> Option<u64>
    requires { AllText (named_parts params.now) }
    ensures { result ≡ spec_number_named name.now (named_parts params.now) }
{
    let text = params.get(name)?;
    positive_decimal(text.as_bytes(), GREATEST_NUMBER)
}
