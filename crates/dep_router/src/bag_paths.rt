//! The path of a file in a bag, decoded where it stands.
ghost use Rattle.std.specs.Prelude.{◌≡◌, ◌≤◌, ◌<◌, ℕ, [], ◌∷◌, length, drop, None, IfSome};
ghost use Rattle.percent_encoding.specs.Percent.{percent_decode as decoded};

use percent_encoding::percent_decode;

// How many octets an escape has (RFC 3986, section 2.1).
const ESCAPE_LENGTH: usize = 3;

/// The octets from this place on, their escapes decoded once. They are written over what stands before them, so this
/// takes no memory.
pub(crate) fn decoded_from(path: Vec<u8>, start: usize) -> Vec<u8>
    ensures { result.items ≡ decoded (drop start path.items) }
{
    let mut path = path;
    let mut read = start;
    let mut written = 0;
    while read < path.len() {
        let (octet, used) = first_decoded(&path[read..]);
        path[written] = octet;
        written += 1;
        read += used;
    }
    path.truncate(written);
    path
}

// The first octet that is decoded from these, and how many it represents: an escape decodes to one octet alone.
fn first_decoded(path: &[u8]) -> (u8, usize)
    requires { 0 < length path.now }
    ensures decodes { decoded path.now ≡ result.0 ∷ decoded (drop result.1 path.now) }
    ensures some { 0 < result.1 }
    ensures within { result.1 ≤ length path.now }
{
    let front = &path[..ESCAPE_LENGTH.min(path.len())];
    match only_decoded(front) {
        Some(octet) => (octet, front.len()),
        None => (path[0], 1),
    }
}

// The octet that these decode to, where that is one alone.
fn only_decoded(front: &[u8]) -> Option<u8>
    ensures one { IfSome result (λ octet. decoded front.now ≡ octet ∷ []) }
    ensures other { result ≡ None → (octet : ℕ) → ¬ (decoded front.now ≡ octet ∷ []) }
{
    let mut octets = percent_decode(front);
    let octet = octets.next()?;
    match octets.next() {
        None => Some(octet),
        Some(_) => None,
    }
}
