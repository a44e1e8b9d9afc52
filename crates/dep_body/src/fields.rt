//! What the fields of a head say of the body: its framing, and whether it is hashed as it comes.
ghost use Rattle.std.specs.Prelude.{◌≡◌};
ghost use Rattle.dep_body.specs.Framing.{framing, length_framing};
ghost use Rattle.dep_octets.specs.Octets.{decimal_number};

use crate::frame::{FrameFault, Framing};
use dep_head::Head;
use dep_octets::{Number, decimal};

/// How the body behind `head` is framed (RFC 9112, section 6.3), where it may have at most `max_upload`
/// bytes. It takes no memory.
///
/// A head with neither Content-Length nor Transfer-Encoding has no body. One Content-Length of digits gives
/// the length, and one Transfer-Encoding of `chunked` in any letter case, in HTTP/1.1, gives chunks.
/// Everything else is `Bad`, and a length above `max_upload` is `TooLarge`, however many digits it has.
pub fn framing(head: &Head, max_upload: u64) -> Result<Framing, FrameFault>
    ensures { result ≡ framing max_upload head.now }
{
    let mut lengths = head.values("Content-Length");
    let mut codings = head.values("Transfer-Encoding");
    match (lengths.next(), codings.next()) {
        (None, None) => Ok(Framing::Empty),
        (Some(length), None) if lengths.next().is_none() => length_of(length, max_upload),
        (None, Some(coding))
            if codings.next().is_none()
                && head.minor_version() == 1
                && coding.eq_ignore_ascii_case(b"chunked") => Ok(Framing::Chunked),
        _ => Err(FrameFault::Bad),
    }
}

/// Whether the octets of a content are hashed as they come: those of a segment only where its head promises a
/// digest, since nothing asks for them else. It decides when they are hashed, and no reply.
pub fn is_hashed_early(head: &Head) -> bool {
    let is_segment = match head.values("Content-Disposition").next() {
        Some(value) => value.starts_with(b"segment"),
        None => false,
    };
    !is_segment || head.values("Digest").next().is_some()
}

fn length_of(value: &[u8], max_upload: u64) -> Result<Framing, FrameFault>
    ensures { result ≡ length_framing (decimal_number value.now max_upload) }
{
    match decimal(value, max_upload) {
        Number::NotDigits => Err(FrameFault::Bad),
        Number::Above => Err(FrameFault::TooLarge),
        Number::Value(length) => Ok(Framing::Length(length)),
    }
}
