//! Heads of requests.
ghost use Rattle.std.specs.String.{string_bytes};
ghost use Rattle.std.specs.Prelude.{◌≡◌, ◌↔◌, [], length, codes, IfOk, IsTrue, IsErrOf, Err};
ghost use Rattle.http_uri.specs.Uri.{Spells, uri_path};
ghost use Rattle.http_uri.specs.declared.uri.Uri.{Uri};
ghost use Rattle.dep_head.specs.Head.{HeadParts, IsHeadText, IsHeadOfAnyTarget, IsHostCount, values_of};
ghost use Rattle.dep_head.specs.Spans.{fields_at, AreWithin};
ghost use Rattle.dep_head.specs.Faults.{head_fault_number};

use crate::end::{HEAD_LIMIT, find_end};
use crate::fields::{Values, values_in};
use http_uri::{Uri, UriError};
use httparse::Status;
use httparse::spans::{EMPTY_HEADER_SPAN, HeaderSpan, Span, parse_request};
use std::alloc::{AllocError, Global};
use std::error::Error;
use std::marker::Model;
use std::{fmt, mem};

/// Why no head was read.
#[derive(Clone, Copy, Debug)]
pub enum HeadFault {
    /// The text is no head of a request.
    NotAHead,
    /// Memory was refused.
    Memory,
}

impl HeadFault {
    /// The number of the fault: 1 or 2.
    pub fn number(self) -> u8
        ensures { result ≡ head_fault_number self }
    {
        match self {
            HeadFault::NotAHead => 1,
            HeadFault::Memory => 2,
        }
    }
}

impl fmt::Display for HeadFault {
    fn fmt<W: fmt::Write>(&self, f: &mut fmt::Formatter<W>) -> fmt::Result {
        f.write_str(match self {
            HeadFault::NotAHead => "the text is no head of a request",
            HeadFault::Memory => "out of memory",
        })
    }
}

impl Error for HeadFault {}

impl From<AllocError> for HeadFault {
    ghost use Rattle.dep_head.specs.declared.head.HeadFault.TheVariants.{Memory};

    ghost from_gives = { λ _ fault. fault ≡ Memory };

    fn from(_error: AllocError) -> HeadFault {
        HeadFault::Memory
    }
}

/// The head of a request, which keeps a copy of its text.
#[derive(Drop)]
pub struct Head {
    text: Vec<u8>,
    method: Span,
    path: String,
    minor: u8,
    fields: Vec<HeaderSpan>,
}

impl Model for Head {
    ghost use Rattle.dep_head.specs.Head.{HeadParts};
    ghost use Rattle.dep_head.specs.Spans.{spanned_parts, SpansFit};
    ghost use Rattle.std.specs.String.{string_bytes};

    ghost Value = { HeadParts };

    ghost view = { λ h. spanned_parts h.text.items h.method (string_bytes h.path) h.minor h.fields.items };

    ghost invariant = { λ h. SpansFit h.text.items h.method h.fields.items };
}

impl Head {
    /// The request's method, in the letter case that it has (RFC 9110, section 9.1).
    pub fn method(&self) -> &[u8]
        ensures { result.now ≡ self.now.method }
    {
        self.method.of(&self.text)
    }

    /// The path of the request's target as it stands there: nothing is decoded, and the query is left out.
    pub fn path(&self) -> &str
        ensures { result.now ≡ self.now.path }
    {
        &self.path
    }

    /// Takes the path over, without a copy. The head has an empty one from then on.
    pub fn take_path(&mut self) -> String
        ensures path { string_bytes result ≡ self.old.path }
        ensures rest { self.new ≡ record {
          method = self.old.method;
          path = [];
          minor = self.old.minor;
          fields = self.old.fields;
        } }
    {
        let none = String::new(*self.path.allocator());
        mem::replace(&mut self.path, none)
    }

    /// The second digit of the version, such as 1 for HTTP/1.1.
    pub fn minor_version(&self) -> u8
        ensures { result ≡ self.now.minor }
    {
        self.minor
    }

    /// The values of the fields with this name, in any letter case, each without the white space around
    /// it (RFC 9112, section 5.1). It takes no memory.
    pub fn values<'a>(&'a self, name: &'a str) -> Values<'a>
        ensures { result ≡ values_of self.now.fields name.now }
    {
        values_in(&self.text, &self.fields, name)
    }
}

/// Reads a text that is the whole head of a request, and nothing after it. It fails with `NotAHead` for any other
/// text, and with `Memory` where memory was refused.
pub fn read_head(alloc: Global, text: &[u8]) -> Result<Head, HeadFault>
    ensures read { IfOk result (IsHeadText text.now) }
    ensures refused { result ≡ Err HeadFault.NotAHead →
        (parts : HeadParts) → ¬ IsHeadText text.now parts }

    // All but the target is read without memory.
    ensures wanted { result ≡ Err HeadFault.Memory → IsHeadOfAnyTarget text.now }
{
    let Some(end) = find_end(text) else {
        return Err(HeadFault::NotAHead);
    };
    if end != text.len() || end > HEAD_LIMIT {
        return Err(HeadFault::NotAHead);
    }
    let mut headers = [EMPTY_HEADER_SPAN; 64];
    let Ok(Status::Complete(spans)) = parse_request(text, &mut headers) else {
        return Err(HeadFault::NotAHead);
    };
    if spans.len != text.len() {
        return Err(HeadFault::NotAHead);
    }
    let fields = &headers[..spans.headers];
    if !has_good_host(text, fields, spans.version) {
        return Err(HeadFault::NotAHead);
    }
    let path = read_path(alloc, spans.path.of(text))?;
    let fields = Vec::from_slice(alloc, fields)?;
    let text = Vec::from_slice(alloc, text)?;
    Ok(Head {
        text,
        method: spans.method,
        path,
        minor: spans.version,
        fields,
    })
}

// The path of a request's target. What else a target has is of no use here.
fn read_path(alloc: Global, target: &[u8]) -> Result<String, HeadFault>
    ensures read { IfOk result (λ path. (uri : Uri) × Spells target.now uri
        × (string_bytes path ≡ uri_path uri)) }
    ensures refused { result ≡ Err HeadFault.NotAHead → (uri : Uri) → ¬ Spells target.now uri }
{
    match Uri::from_bytes(alloc, target) {
        Ok(uri) => Ok(String::from_str(alloc, uri.path())?),
        Err(UriError::Invalid(_)) => Err(HeadFault::NotAHead),
        Err(UriError::OutOfMemory) => Err(HeadFault::Memory),
    }
}

// HTTP/1.1 has exactly one Host field, and HTTP/1.0 at most one (RFC 9112, section 3.2).
fn has_good_host(text: &[u8], fields: &[HeaderSpan], minor: u8) -> bool
    requires { AreWithin text.now fields.now }
    ensures { IsTrue result ↔
        IsHostCount minor (length (values_of (fields_at text.now fields.now) (codes "Host"))) }
{
    let mut hosts = values_in(text, fields, "Host");
    match hosts.next() {
        Some(_) => hosts.next().is_none(),
        None => minor != 1,
    }
}
