//! Metadata documents.
ghost use Rattle.std.specs.Prelude.{◌≡◌, option_map};
ghost use Rattle.std.specs.FinMap as map;
ghost use Rattle.serde_json.specs.Find.{as_str};
ghost use Rattle.serde_json.specs.View.{view, items_view, members_view};
ghost use Rattle.dep_docs_in.specs.Documents.{each_read, keep, kept_texts, metadata_of, metadata_read, texts_in};
ghost use Rattle.dep_docs_in.specs.Faults.{GivesRead, GivesBy};

use crate::document::{document, has_type, text_in};
use crate::fault::DocFault;
use dep_types::{List, Metadata, Text, is_kept_name};
use serde_json::{Map, Value};
use std::alloc::Global;
use std::slice;

/// Reads a metadata document (SWORD 3.0, metadata): an object of JSON whose `@type` is absent or `Metadata`. Each
/// member whose name begins with `dc:` or `dcterms:` is a text or a list of texts; it is kept, unless the list is
/// empty. Other members may be anything, and are not kept. It fails with `Malformed` for any other content, and with
/// `Memory` where memory was refused.
pub fn read_metadata(alloc: Global, content: &[u8]) -> Result<Metadata, DocFault>
    ensures { GivesRead result (metadata_read content.now) }
{
    let document = document(alloc, content)?;
    metadata_of(alloc, &document)
}

fn metadata_of(alloc: Global, document: &Value) -> Result<Metadata, DocFault>
    ensures { GivesRead result (metadata_of (view document.now)) }
{
    match document.as_object() {
        Some(members) if has_type(document, "Metadata") => kept(alloc, members),
        _ => Err(DocFault::Malformed),
    }
}

// What the members keep.
fn kept(alloc: Global, members: &Map<String, Value>) -> Result<Metadata, DocFault>
    ensures { GivesRead result (kept_texts map.empty (members_view members.now.entries)) }
{
    let mut metadata = Metadata::new(alloc);
    for (name, value) in members {
        if is_kept_name(name.as_bytes()) {
            keep(alloc, &mut metadata, name, value)?;
        }
    }
    Ok(metadata)
}

// Puts the texts of a member under its name, where it has some.
fn keep(alloc: Global, metadata: &mut Metadata, name: &str, value: &Value) -> Result<(), DocFault>
    ensures { GivesBy (λ _. metadata.new) result
        (option_map (λ texts. keep name.now texts metadata.old) (texts_in (view value.now))) }
{
    let texts = texts(alloc, value)?;
    if texts.as_slice().is_empty() {
        return Ok(());
    }
    metadata.insert(Text::copied(alloc, name)?, texts)?;
    Ok(())
}

// A text, or a list of texts.
fn texts(alloc: Global, value: &Value) -> Result<List<Text>, DocFault>
    ensures { GivesRead result (texts_in (view value.now)) }
{
    match value.as_array() {
        Some(values) => listed(alloc, values),
        None => listed(alloc, slice::from_ref(value)),
    }
}

fn listed(alloc: Global, values: &[Value]) -> Result<List<Text>, DocFault>
    ensures { GivesRead result (each_read as_str (items_view values.now)) }
{
    let mut texts = Vec::new(alloc);
    for value in values {
        texts.push(text_in(alloc, value)?)?;
    }
    Ok(List::from_vec(texts))
}
