//! The Digest field.
ghost use Rattle.std.specs.Prelude.{◌≡◌, ◌==◌, MatchOption, position};
ghost use Rattle.std.specs.Result.{result_ok};
ghost use Rattle.std.specs.Str.{str_eq_ignore_ascii_case};
ghost use Rattle.dep_octets.specs.Octets.{members};
ghost use Rattle.dep_fixity.specs.Fixity.{digest_field, digest_under, is_kept, joined_digest, keeps, name_and_value, octets_of};
ghost use Rattle.dep_fixity.specs.Faults.{digest_fault_number};

use crate::hasher::Digests;
use crate::spelling::read_digest;
use dep_octets::split_list;
use std::error::Error;
use std::fmt;

/// The digests that a request promises of its content, an algorithm each, where it promises one.
#[derive(Clone, Copy)]
pub struct DigestList {
    /// The SHA-256.
    pub sha256: Option<[u8; 32]>,
    /// The SHA-512.
    pub sha512: Option<[u8; 64]>,
}

impl DigestList {
    ghost use Rattle.dep_fixity.specs.Fixity.{none_promised, promises};

    /// The list that promises no digest.
    pub fn none() -> DigestList
        ensures { result ≡ none_promised }
    {
        DigestList {
            sha256: None,
            sha512: None,
        }
    }

    /// Whether it promises a digest, of either algorithm.
    pub fn promises(&self) -> bool
        ensures { result ≡ promises self.now }
    {
        self.sha256.is_some() || self.sha512.is_some()
    }
}

/// Why a Digest field is refused.
#[derive(Clone, Copy, Debug)]
pub enum DigestFault {
    /// A member has no `=`, a SHA-256 is neither 64 hexadecimal digits nor the base64 of 32 octets, a SHA-512 is
    /// neither 128 hexadecimal digits nor the base64 of 64 octets, or two members promise different ones.
    Unreadable,
}

impl DigestFault {
    /// The number of the fault: always 1.
    pub fn number(self) -> u8
        ensures { result ≡ digest_fault_number self }
    {
        match self {
            DigestFault::Unreadable => 1,
        }
    }
}

impl fmt::Display for DigestFault {
    fn fmt<W: fmt::Write>(&self, f: &mut fmt::Formatter<W>) -> fmt::Result {
        f.write_str(match self {
            DigestFault::Unreadable => "the digests could not be read",
        })
    }
}

impl Error for DigestFault {}

/// Reads the value of a Digest field (RFC 3230, section 4.3.2): members `algorithm=digest` in a comma list. A member is
/// cut at its first `=`, and no white space may stand about it. `SHA-256` and `SHA-512`, in any letter case, have as
/// value the digest in base64 with its padding (RFC 5843) or in hexadecimal digits of either case. Other algorithms are
/// ignored. The same digest may stand twice, and a list without members promises nothing.
pub fn read_digest_field(text: &[u8]) -> Result<DigestList, DigestFault>
    ensures { result_ok result ≡ digest_field text.now }
{
    Ok(DigestList {
        sha256: read_promise(text, b"SHA-256")?,
        sha512: read_promise(text, b"SHA-512")?,
    })
}

/// Whether each digest that is promised is the actual one.
pub fn check(promised: &DigestList, actual: &Digests) -> bool
    ensures { result ≡ keeps promised.now actual.now }
{
    keeps_digest(promised.sha256, &actual.sha256) && keeps_digest(promised.sha512, &actual.sha512)
}

fn keeps_digest<const N: usize>(promised: Option<[u8; N]>, actual: &[u8; N]) -> bool
    ensures { result ≡ is_kept promised.entry actual.now }
{
    match promised {
        Some(digest) => digest == *actual,
        None => true,
    }
}

// The digest of N octets that the members of this name promise.
fn read_promise<const N: usize>(
    text: &[u8],
    algorithm: &[u8],
) -> Result<Option<[u8; N]>, DigestFault>
    ensures { result_ok result ≡ digest_under N algorithm.now (members text.now) }
{
    let mut promised = None;
    for member in split_list(text) {
        let Some((name, value)) = cut_at_equals(member) else {
            return Err(DigestFault::Unreadable);
        };
        if is_same_name(name, algorithm) {
            let Some(digest) = promised_again(promised, value) else {
                return Err(DigestFault::Unreadable);
            };
            promised = Some(digest);
        }
    }
    Ok(promised)
}

// The digest that the value spells, unless another one was promised before.
fn promised_again<const N: usize>(before: Option<[u8; N]>, value: &[u8]) -> Option<[u8; N]>
    ensures { result ≡ joined_digest before.entry (octets_of N value.now) }
{
    let digest = read_digest(value)?;
    match before {
        Some(other) if other != digest => None,
        _ => Some(digest),
    }
}

// Whether two names are the same, in any letter case.
fn is_same_name(name: &[u8], other: &[u8]) -> bool
    ensures { result ≡ str_eq_ignore_ascii_case name.now other.now }
{
    name.eq_ignore_ascii_case(other)
}

// A member's name and its value.
fn cut_at_equals(member: &[u8]) -> Option<(&[u8], &[u8])>
    ensures { MatchOption result (name_and_value member.now ≡ None)
        (λ cut. name_and_value member.now ≡ Some (cut.0.now, cut.1.now)) }
{
    match first_equals(member) {
        Some(equals) => Some((&member[..equals], &member[equals + 1..])),
        None => None,
    }
}

fn first_equals(member: &[u8]) -> Option<usize>
    ensures { result ≡ position (λ b. b == 61) member.now }
{
    member.iter().position(|b| *b == b'=')
}
