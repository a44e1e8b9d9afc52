//! The line of a file.
ghost use Rattle.std.specs.Prelude.{◌≡◌, OnOk, length};
ghost use Rattle.dep_manifest.specs.Growing.{Grows};
ghost use Rattle.dep_manifest.specs.Lengths.{in_64_bits};
ghost use Rattle.dep_manifest.specs.Manifest.{encoded_byte, encoded_path, line_of};

use std::alloc::AllocError;
use std::slice;

/// Adds the line of a file: its digest, of which these are the hexadecimal digits, two blanks, and its path
/// (RFC 8493, section 2.1.3). It fails for lack of memory alone.
pub(crate) fn add_line(text: &mut Vec<u8>, path: &str, digits: &[u8]) -> Result<(), AllocError>
    ensures { OnOk result (Grows text.old text.new (line_of digits.now path.now)) }
{
    text.extend_from_slice(digits)?;
    text.extend_from_slice(b"  ")?;
    add_encoded(text, path.as_bytes())?;
    text.extend_from_slice(b"\n")
}

// Adds a path as a manifest writes it.
fn add_encoded(text: &mut Vec<u8>, path: &[u8]) -> Result<(), AllocError>
    ensures { OnOk result (Grows text.old text.new (encoded_path path.now)) }
{
    for byte in path {
        text.extend_from_slice(encoded(byte))?;
    }
    Ok(())
}

/// How many bytes a manifest writes for a path, as far as 64 bits hold it.
pub(crate) fn encoded_length(path: &[u8]) -> u64
    ensures { result ≡ in_64_bits (length (encoded_path path.now)) }
{
    let mut length = 0u64;
    for byte in path {
        length = length.saturating_add(encoded(byte).len() as u64);
    }
    length
}

// A byte as a manifest writes it.
fn encoded(byte: &u8) -> &[u8]
    ensures { result.now ≡ encoded_byte byte.now }
{
    match *byte {
        b'%' => b"%25",
        b'\n' => b"%0A",
        b'\r' => b"%0D",
        _ => slice::from_ref(byte),
    }
}
