//! The metadata document.
ghost use Rattle.dep_docs_out.specs.Made.{MakesItems};
ghost use Rattle.dep_docs_out.specs.Documents.{bag_metadata_document, metadata_document, texts_data, texts_members};
ghost use Rattle.dep_docs_out.specs.Json.{AddsMember, AddsMembers, text_list};

use crate::document::{CONTEXT, Document};
use crate::urls::part_url;
use dep_types::{Config, Metadata, MetadataEntry, Text};
use json::Token;
use std::alloc::{AllocError, Global};

/// Returns the metadata document of SWORD 3.0: the metadata of the object with this number. A name that has
/// one text has it as the text, and not as a list.
pub fn metadata_doc(
    alloc: Global,
    config: &Config,
    object: u64,
    metadata: &Metadata,
) -> Result<Vec<u8>, AllocError>
    ensures { MakesItems result (metadata_document config.now object metadata.now) }
{
    let mut document = Document::begun(alloc)?;
    document.text("@context", CONTEXT);
    document.made_text("@id", part_url(alloc, config, object, "/metadata"));
    document.text("@type", "Metadata");
    add_metadata(&mut document, metadata);
    document.ended()
}

/// Returns the metadata document of an object as it stands in the object's bag, where it has no URL.
pub fn bag_metadata_doc(alloc: Global, metadata: &Metadata) -> Result<Vec<u8>, AllocError>
    ensures { MakesItems result (bag_metadata_document metadata.now) }
{
    let mut document = Document::begun(alloc)?;
    document.text("@context", CONTEXT);
    document.text("@type", "Metadata");
    add_metadata(&mut document, metadata);
    document.ended()
}

fn add_metadata(document: &mut Document, metadata: &Metadata)
    ensures { AddsMembers document.old document.new (texts_members metadata.now) }
{
    for entry in metadata.entries() {
        add_entry(document, entry);
    }
}

fn add_entry(document: &mut Document, entry: &MetadataEntry)
    ensures { AddsMember document.old document.new entry.now.name (texts_data entry.now.texts) }
{
    match entry.texts.as_slice() {
        [text] => document.text(entry.name.as_str(), text.as_str()),
        texts => add_texts(document, entry.name.as_str(), texts),
    }
}

fn add_texts(document: &mut Document, name: &str, texts: &[Text])
    ensures { AddsMember document.old document.new name.now (text_list texts.now) }
{
    document.token(Token::Key(name));
    document.token(Token::BeginArray);
    for text in texts {
        document.text_item(text.as_str());
    }
    document.token(Token::EndArray);
}
