//! The document of an upload.
ghost use Rattle.std.specs.Prelude.{◌≡◌, true, IfOk, codes, option_map};
ghost use Rattle.dep_docs_out.specs.Documents.{expecting, segments_data};
ghost use Rattle.dep_docs_out.specs.Segments.{are_segments, ordered_upload_document};
ghost use Rattle.dep_docs_out.specs.Json.{AddsMember, number_list};

use crate::document::{CONTEXT, Document};
use crate::urls::upload_url;
use dep_types::{Config, UploadRow};
use json::Token;
use std::alloc::{AllocError, Global};

/// Returns the document of a staged upload (SWORD 3.0, segmented upload): which of its segments were
/// received, and which are still to come. It takes the numbers of those that were received, from 1 on and
/// each above the one before it. It is `None` for other numbers, which no upload has.
pub fn upload_doc(
    alloc: Global,
    config: &Config,
    upload: &UploadRow,
    received: &[u64],
) -> Result<Option<Vec<u8>>, AllocError>
    ensures { IfOk result (λ document. option_map (λ bytes. bytes.items) document
        ≡ ordered_upload_document config.now upload.now received.now) }
{
    if !are_segments(received) {
        return Ok(None);
    }
    let mut document = Document::begun(alloc)?;
    document.text("@context", CONTEXT);
    document.made_text("@id", upload_url(alloc, config, upload.upload));
    document.text("@type", "Temporary");
    add_segments(&mut document, upload, received);
    Ok(Some(document.ended()?))
}

// Whether the numbers may be those of an upload's segments.
fn are_segments(numbers: &[u64]) -> bool
    ensures { result ≡ are_segments numbers.now }
{
    let mut last = 0;
    for number in numbers {
        if *number <= last {
            return false;
        }
        last = *number;
    }
    true
}

// Which segments it waits for, and which it has.
fn add_segments(document: &mut Document, upload: &UploadRow, received: &[u64])
    requires { are_segments received.now ≡ true }
    ensures { AddsMember document.old document.new (codes "segments")
        (segments_data upload.now received.now) }
{
    document.token(Token::Key("segments"));
    document.token(Token::BeginObject);
    add_expecting(document, upload.count, received);
    add_received(document, received);
    document.whole_number("segment_size", upload.segment_size);
    document.whole_number("size", upload.size);
    document.token(Token::EndObject);
}

fn add_expecting(document: &mut Document, count: u64, received: &[u64])
    requires { are_segments received.now ≡ true }
    ensures { AddsMember document.old document.new (codes "expecting")
        (number_list (expecting count received.now)) }
{
    document.token(Token::Key("expecting"));
    document.token(Token::BeginArray);
    let mut left = received;
    for before in 0..count {
        let number = before + 1;
        match left.split_first() {
            Some((first, rest)) if *first == number => left = rest,
            _ => document.whole_number_item(number),
        }
    }
    document.token(Token::EndArray);
}

fn add_received(document: &mut Document, received: &[u64])
    ensures { AddsMember document.old document.new (codes "received")
        (number_list received.now) }
{
    document.token(Token::Key("received"));
    document.token(Token::BeginArray);
    for number in received {
        document.whole_number_item(*number);
    }
    document.token(Token::EndArray);
}
