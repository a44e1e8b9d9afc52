//! Texts of digests.
ghost use Rattle.std.specs.Prelude.{◌≡◌};
ghost use Rattle.base64.specs.GeneralPurpose.{encode_of};
ghost use Rattle.base64.specs.Engines.{standard};
ghost use Rattle.hex.specs.Hex.{encode_lower};
ghost use Rattle.dep_fixity.specs.Fixity.{octets_of, octets_of_hex, octets_of_base64};

use base64::engine::general_purpose::STANDARD;

/// A SHA-256 in hexadecimal digits, in lower case, as a manifest of RFC 8493, section 2.1.3 has it.
pub fn to_hex(digest: &[u8; 32]) -> [u8; 64]
    ensures { result ≡ encode_lower digest.now }
{
    let mut text = [0u8; 64];
    let _ = hex::encode_to_slice(digest.as_slice(), &mut text);
    text
}

/// A SHA-512 in hexadecimal digits, in lower case, as a manifest of RFC 8493, section 2.1.3 has it.
pub fn to_hex512(digest: &[u8; 64]) -> [u8; 128]
    ensures { result ≡ encode_lower digest.now }
{
    let mut text = [0u8; 128];
    let _ = hex::encode_to_slice(digest.as_slice(), &mut text);
    text
}

/// A SHA-256 in base64 with padding (RFC 4648, section 4), as RFC 5843 has it in a Digest field.
pub fn to_base64(digest: &[u8; 32]) -> [u8; 44]
    ensures { result ≡ encode_of standard digest.now }
{
    let mut text = [0u8; 44];
    let _ = STANDARD.encode_slice(digest, &mut text);
    text
}

// The digest of N octets that a text spells, in hexadecimal digits or in base64.
#[tactic(auto, unfolding(crate::specs::Fixity::octets_of))]
pub(crate) fn read_digest<const N: usize>(text: &[u8]) -> Option<[u8; N]>
    ensures { result ≡ octets_of N text.now }
{
    match from_hex(text) {
        Some(digest) => Some(digest),
        None => from_base64(text),
    }
}

fn from_hex<const N: usize>(text: &[u8]) -> Option<[u8; N]>
    ensures { result ≡ octets_of_hex N text.now }
{
    let mut digest = [0u8; N];
    match hex::decode_to_slice(text, &mut digest) {
        Ok(()) => Some(digest),
        Err(_) => None,
    }
}

fn from_base64<const N: usize>(text: &[u8]) -> Option<[u8; N]>
    ensures { result ≡ octets_of_base64 N text.now }
{
    let mut digest = [0u8; N];
    match STANDARD.decode_slice(text, &mut digest) {
        Ok(count) if count == N => Some(digest),
        _ => None,
    }
}
