//! The status document.
ghost use Rattle.std.specs.Prelude.{◌≡◌, ℕ, List, [], ◌∷◌, codes};
ghost use Rattle.dep_docs_out.specs.Made.{MakesItems, MakesText};
ghost use Rattle.dep_docs_out.specs.Documents.{actions_data, behalf_members, deposit_relation, link_data, links_data, object_members, part_data, relations_data, state_id, state_members, status_document};
ghost use Rattle.dep_docs_out.specs.Json.{AddsItems, AddsMember, AddsMembers};

use crate::document::{CONTEXT, Document};
use crate::urls::{file_url, object_url, part_url, url};
use dep_moment::Moment;
use dep_types::{BINARY_PACKAGING, Config, FileRow, ObjectRow, ObjectView};
use json::Token;
use std::alloc::{AllocError, Global};

/// Returns the status document of SWORD 3.0: an object, and a link for each of its files in their order. A
/// file's moment after the end of the year 9999 is written as that year's last second.
pub fn status_doc(alloc: Global, config: &Config, view: &ObjectView) -> Result<Vec<u8>, AllocError>
    ensures { MakesItems result (status_document config.now view.now) }
{
    let mut document = Document::begun(alloc)?;
    add_object(&mut document, alloc, config, &view.object);
    add_links(&mut document, alloc, config, view);
    add_state(&mut document, alloc, config, &view.object);
    document.ended()
}

// Where the object stands, what may be done with it, and its tags.
#[tactic(auto, unfolding(crate::specs::Documents::object_members))]
fn add_object(document: &mut Document, alloc: Global, config: &Config, object: &ObjectRow)
    ensures { AddsMembers document.old document.new (object_members config.now object.now) }
{
    document.text("@context", CONTEXT);
    document.made_text("@id", object_url(alloc, config, object.object));
    document.text("@type", "Status");
    add_actions(document);
    document.decimal("eTag", object.object_tag);
    let files = part_url(alloc, config, object.object, "/files");
    add_part(document, "fileSet", files, object.files_tag);
}

// What may be done with an object: everything.
fn add_actions(document: &mut Document)
    ensures { AddsMember document.old document.new (codes "actions") actions_data }
{
    document.token(Token::Key("actions"));
    document.token(Token::BeginObject);
    document.flag("appendFiles", true);
    document.flag("appendMetadata", true);
    document.flag("deleteFiles", true);
    document.flag("deleteMetadata", true);
    document.flag("deleteObject", true);
    document.flag("getFiles", true);
    document.flag("getMetadata", true);
    document.flag("replaceFiles", true);
    document.flag("replaceMetadata", true);
    document.token(Token::EndObject);
}

// A part of an object: where it stands, and its entity tag.
fn add_part(document: &mut Document, name: &str, place: Result<String, AllocError>, tag: u64)
    ensures { (bytes : List ℕ) → MakesText place bytes
        → AddsMember document.old document.new name.now (part_data bytes tag) }
{
    document.token(Token::Key(name));
    document.token(Token::BeginObject);
    document.made_text("@id", place);
    document.decimal("eTag", tag);
    document.token(Token::EndObject);
}

fn add_links(document: &mut Document, alloc: Global, config: &Config, view: &ObjectView)
    ensures { AddsMember document.old document.new (codes "links")
        (links_data config.now view.now) }
{
    document.token(Token::Key("links"));
    document.token(Token::BeginArray);
    for file in view.files.as_slice() {
        add_link(document, alloc, config, view.object.object, file);
    }
    document.token(Token::EndArray);
}

// Where a file stands, how it came, and what it is in the file set.
#[tactic(auto, unfolding(crate::specs::Documents::link_data, crate::specs::Documents::deposit_members, crate::specs::Documents::kept_members))]
fn add_link(document: &mut Document, alloc: Global, config: &Config, object: u64, file: &FileRow)
    ensures { AddsItems document.old document.new (link_data config.now object file.now ∷ []) }
{
    document.token(Token::BeginObject);
    document.made_text("@id", file_url(alloc, config, object, file.file));
    document.text("contentType", file.media.as_str());
    document.text("depositedBy", config.depositor.as_str());
    document.moment("depositedOn", Moment::new(file.deposited));
    add_behalf(document, file);
    document.decimal("eTag", file.tag);
    document.text("packaging", BINARY_PACKAGING);
    add_relations(document, file.by_reference);
    document.text("status", "http://purl.org/net/sword/3.0/filestate/ingested");
    document.token(Token::EndObject);
}

// On whose behalf a file was deposited, where it was on another's.
fn add_behalf(document: &mut Document, file: &FileRow)
    ensures { AddsMembers document.old document.new (behalf_members file.now.behalf) }
{
    if let Some(behalf) = &file.behalf {
        document.text("depositedOnBehalfOf", behalf.as_str());
    }
}

// How a file came, and that it belongs to the file set.
fn add_relations(document: &mut Document, by_reference: bool)
    ensures { AddsMember document.old document.new (codes "rel") (relations_data by_reference) }
{
    document.token(Token::Key("rel"));
    document.token(Token::BeginArray);
    document.text_item(deposit_relation(by_reference));
    document.text_item("http://purl.org/net/sword/3.0/terms/fileSetFile");
    document.token(Token::EndArray);
}

fn deposit_relation(by_reference: bool) -> &'static str
    ensures { result.now ≡ deposit_relation by_reference }
{
    if by_reference {
        "http://purl.org/net/sword/3.0/terms/byReferenceDeposit"
    } else {
        "http://purl.org/net/sword/3.0/terms/originalDeposit"
    }
}

// The members of an object behind its links; whether the deposit is complete stands in a list of one state.
#[tactic(auto, unfolding(crate::specs::Documents::state_members, crate::specs::Documents::states_data))]
fn add_state(document: &mut Document, alloc: Global, config: &Config, object: &ObjectRow)
    ensures { AddsMembers document.old document.new (state_members config.now object.now) }
{
    let metadata = part_url(alloc, config, object.object, "/metadata");
    add_part(document, "metadata", metadata, object.metadata_tag);
    document.made_text("service", url(alloc, config, "/service"));
    document.token(Token::Key("state"));
    document.token(Token::BeginArray);
    document.token(Token::BeginObject);
    document.text("@id", state_id(object.ingested));
    document.token(Token::EndObject);
    document.token(Token::EndArray);
}

// Whether the deposit is complete.
fn state_id(ingested: bool) -> &'static str
    ensures { result.now ≡ state_id ingested }
{
    if ingested {
        "http://purl.org/net/sword/3.0/state/ingested"
    } else {
        "http://purl.org/net/sword/3.0/state/inProgress"
    }
}
