//! A document as a value of JSON, and what its members say.
ghost use Rattle.std.specs.Prelude.{◌≡◌, option_map};
ghost use Rattle.serde_json.specs.Find.{as_str};
ghost use Rattle.serde_json.specs.View.{items_view, view};
ghost use Rattle.dep_docs_in.specs.Documents.{document, has_type, items_under, text_under};
ghost use Rattle.dep_docs_in.specs.Faults.{GivesRead, GivesBy};
ghost use Rattle.std.specs.Option.{option_copied};

use crate::fault::DocFault;
use dep_types::Text;
use serde_json::{Category, Value};
use std::alloc::Global;

/// The value that a content is (RFC 8259), nested at most 127 deep. Of members with one name the last stays.
pub(crate) fn document(alloc: Global, content: &[u8]) -> Result<Value, DocFault>
    ensures { GivesBy view result (document content.now) }
{
    match Value::from_slice(alloc, content) {
        Ok(value) => Ok(value),
        Err(error) => match error.classify() {
            Category::Memory => Err(DocFault::Memory),
            _ => Err(DocFault::Malformed),
        },
    }
}

/// Whether `@type` is absent, or this name.
pub(crate) fn has_type(document: &Value, name: &str) -> bool
    ensures { result ≡ has_type name.now (view document.now) }
{
    match document.get("@type") {
        Some(value) => matches!(value.as_str(), Some(found) if found == name),
        None => true,
    }
}

/// The text of a member that is there and is a text.
pub(crate) fn text_of<'a>(document: &'a Value, name: &str) -> Option<&'a str>
    ensures { option_copied result ≡ text_under name.now (view document.now) }
{
    document.get(name)?.as_str()
}

/// The items of a member that is there and is a list.
pub(crate) fn items_of<'a>(document: &'a Value, name: &str) -> Option<&'a Vec<Value>>
    ensures { option_map (λ items. items_view items.now.items) result ≡ items_under name.now (view document.now) }
{
    document.get(name)?.as_array()
}

/// A copy of the text that a value is.
pub(crate) fn text_in(alloc: Global, value: &Value) -> Result<Text, DocFault>
    ensures { GivesRead result (as_str (view value.now)) }
{
    match value.as_str() {
        Some(text) => Ok(Text::copied(alloc, text)?),
        None => Err(DocFault::Malformed),
    }
}
