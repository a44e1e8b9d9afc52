//! The service document.
ghost use Rattle.std.specs.Prelude.{codes};
ghost use Rattle.dep_docs_out.specs.Made.{MakesItems};
ghost use Rattle.dep_docs_out.specs.Documents.{service_document, service_limits, service_offers, service_places, url};
ghost use Rattle.dep_docs_out.specs.Json.{AddsMembers};

use crate::document::{CONTEXT, Document};
use crate::urls::url;
use dep_types::{BINARY_PACKAGING, Config, METADATA_FORMAT};
use json::Token;
use std::alloc::{AllocError, Global};

/// Returns the service document of SWORD 3.0: what the server offers, its limits, and where it takes
/// deposits.
pub fn service_doc(alloc: Global, config: &Config) -> Result<Vec<u8>, AllocError>
    ensures { MakesItems result (service_document config.now) }
{
    let mut document = Document::begun(alloc)?;
    add_offers(&mut document, alloc, config);
    add_limits(&mut document, config);
    add_places(&mut document, alloc, config);
    document.ended()
}

// What the server takes.
#[tactic(auto, unfolding(crate::specs::Documents::service_offers))]
fn add_offers(document: &mut Document, alloc: Global, config: &Config)
    ensures { AddsMembers document.old document.new
        (service_offers (url config.now (codes "/service"))) }
{
    document.text("@context", CONTEXT);
    document.made_text("@id", url(alloc, config, "/service"));
    document.text("@type", "ServiceDocument");
    document.only("accept", "*/*");
    document.flag("acceptDeposits", true);
    document.only("acceptMetadata", METADATA_FORMAT);
    document.only("acceptPackaging", BINARY_PACKAGING);
}

// What it is called, its limits, and the digests of a content that a request may promise, by their names in a Digest
// field (RFC 5843).
#[tactic(auto, unfolding(crate::specs::Documents::service_limits))]
fn add_limits(document: &mut Document, config: &Config)
    ensures { AddsMembers document.old document.new (service_limits config.now) }
{
    document.flag("byReferenceDeposit", true);
    document.text("dc:title", config.title.as_str());
    document.text("dcterms:abstract", config.abstract_text.as_str());
    document.token(Token::Key("digest"));
    document.token(Token::BeginArray);
    document.text_item("SHA-256");
    document.text_item("SHA-512");
    document.token(Token::EndArray);
    document.whole_number("maxAssembledSize", config.max_assembled);
    document.whole_number("maxSegments", config.max_segments);
    document.whole_number("maxUploadSize", config.max_upload);
}

// Where it takes it.
#[tactic(auto, unfolding(crate::specs::Documents::service_places))]
fn add_places(document: &mut Document, alloc: Global, config: &Config)
    ensures { AddsMembers document.old document.new
        (service_places config.now (url config.now (codes "/service"))
        (url config.now (codes "/staging"))) }
{
    document.flag("onBehalfOf", config.on_behalf_of);
    document.made_text("root", url(alloc, config, "/service"));
    document.made_text("staging", url(alloc, config, "/staging"));
    document.whole_number("stagingMaxIdle", config.staging_max_idle);
    document.text("version", "http://purl.org/net/sword/3.0");
}
