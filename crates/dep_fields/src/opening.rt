//! What the parameters of a segmented upload say.
ghost use Rattle.std.specs.Prelude.{◌≡◌};
ghost use Rattle.std.specs.Option.{option_copied};
ghost use Rattle.dep_fields.specs.Kinds as spec;

use crate::kind::Opening;
use dep_fixity::{DigestList, read_digest_field};
use dep_octets::{Number, decimal};
use dep_params::Disposition;

/// What is to be opened, where each number is there and at least 1, and the digest can be read.
pub(crate) fn read_opening(disposition: &Disposition) -> Option<Opening>
    ensures { result ≡ spec.opening_of disposition.now }
{
    let size = positive(disposition.parameter(b"size"))?;
    let count = positive(disposition.parameter(b"segment_count"))?;
    let segment_size = positive(disposition.parameter(b"segment_size"))?;
    let digest = promised(disposition.parameter(b"digest"))?;
    Some(Opening {
        size,
        count,
        segment_size,
        digest,
    })
}

// A number of at least 1.
fn positive(text: Option<&[u8]>) -> Option<u64>
    ensures { result ≡ spec.positive (option_copied text.entry) }
{
    let number = number(text)?;
    if number > 0 { Some(number) } else { None }
}

/// A number in decimal digits, cut at the greatest of 64 bits.
pub(crate) fn number(text: Option<&[u8]>) -> Option<u64>
    ensures { result ≡ spec.number (option_copied text.entry) }
{
    match decimal(text?, u64::MAX) {
        Number::NotDigits => None,
        Number::Above => Some(u64::MAX),
        Number::Value(number) => Some(number),
    }
}

// What a parameter promises, which is nothing where it isn't there.
fn promised(text: Option<&[u8]>) -> Option<DigestList>
    ensures { result ≡ spec.promised (option_copied text.entry) }
{
    let Some(text) = text else {
        return Some(DigestList::none());
    };
    match read_digest_field(text) {
        Ok(digest) => Some(digest),
        Err(_) => None,
    }
}
