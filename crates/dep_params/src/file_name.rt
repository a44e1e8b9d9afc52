//! The file name that a disposition gives.
ghost use Rattle.std.specs.Prelude.{◌≡◌, ◌==◌, ◌<◌, ◌↔◌, ◌⊎◌, ℕ, List, codes, IsTrue, IfOk, IfErr, MatchOption, MatchResult, length, position, slice_index, string_bytes};
ghost use Rattle.percent_encoding.specs.Percent as spec;
ghost use Rattle.std.specs.Str.{str_eq_ignore_ascii_case};
ghost use Rattle.dep_params.specs.Grammar.{parameter_value};
ghost use Rattle.dep_params.specs.Failing.{FailsToName};
ghost use Rattle.dep_params.specs.Names.{HasTwoDigitsAfter, HasWholeEscapes, IsExtended, IsFileName, IsNameFault, IsReportedName};
ghost use Rattle.dep_params.specs.Reading.{cut_at_apostrophe};

use crate::disposition::{Disposition, ParamFault};
use dep_types::is_good_name;
use percent_encoding::percent_decode;
use std::alloc::Global;

impl Disposition {
    /// The file name: that of `filename*` where it is there, also beside a `filename` (RFC 6266, section 4.3), and else
    /// that of `filename`. A `filename*` has the character set `UTF-8`, in any letter case, a language that may be
    /// empty, and octets in which each `%` stands before two hexadecimal digits (RFC 8187, section 3.2). A name has 1 to
    /// 255 bytes of UTF-8 without controls of ASCII, `/` and `\`, and is neither `.` nor `..`.
    pub fn file_name(&self, alloc: Global) -> Result<String, ParamFault>
        ensures named { IfOk result (λ name. IsFileName self.now (string_bytes name)) }
        ensures unnamed { result ≡ Err ParamFault.NoName →
            (name : List ℕ) → ¬ IsFileName self.now name }
        ensures faults { IfErr result IsNameFault }
        ensures wanted { result ≡ Err ParamFault.Memory →
            (name : List ℕ) × IsReportedName self.now name }
    {
        let name = self.reported_name(alloc)?;
        if !is_good_name(&name) {
            return Err(ParamFault::NoName);
        }
        match String::from_utf8(name) {
            Ok(name) => Ok(name),
            Err(_) => Err(ParamFault::NoName),
        }
    }

    // The name that the parameters give, whether it may stand or not.
    fn reported_name(&self, alloc: Global) -> Result<Vec<u8>, ParamFault>
        ensures { MatchResult result (λ name. IsReportedName self.now name.items)
            (FailsToName (IsReportedName self.now)) }
    {
        match self.parameter(b"filename*") {
            Some(text) => decoded(alloc, text),
            None => match self.parameter(b"filename") {
                Some(name) => Ok(name.to_vec(alloc)?),
                None => Err(ParamFault::NoName),
            },
        }
    }
}

// The name that an extended value gives.
fn decoded(alloc: Global, text: &[u8]) -> Result<Vec<u8>, ParamFault>
    ensures { MatchResult result (λ name. IsExtended text.now name.items)
        (FailsToName (IsExtended text.now)) }
{
    let Some(escaped) = escaped_part(text) else {
        return Err(ParamFault::NoName);
    };
    let mut name = Vec::new(alloc);
    percent_decode(escaped).append_to(&mut name)?;
    Ok(name)
}

// The escaped octets of an extended value.
fn escaped_part(text: &[u8]) -> Option<&[u8]>
    ensures { MatchOption result ((name : List ℕ) → ¬ IsExtended text.now name)
        (λ escaped. IsExtended text.now (spec.percent_decode escaped.now)) }
{
    let (charset, rest) = cut_at_apostrophe(text)?;
    let (_, escaped) = cut_at_apostrophe(rest)?;
    if is_utf8_charset(charset) && has_whole_escapes(escaped) {
        Some(escaped)
    } else {
        None
    }
}

fn is_utf8_charset(charset: &[u8]) -> bool
    ensures { result ≡ str_eq_ignore_ascii_case charset.now (codes "UTF-8") }
{
    charset.eq_ignore_ascii_case(b"UTF-8")
}

// What stands before the first apostrophe, and after it.
fn cut_at_apostrophe(text: &[u8]) -> Option<(&[u8], &[u8])>
    ensures { MatchOption result (cut_at_apostrophe text.now ≡ None)
        (λ cut. cut_at_apostrophe text.now ≡ Some (cut.0.now, cut.1.now)) }
{
    match first_apostrophe(text) {
        Some(apostrophe) => Some((&text[..apostrophe], &text[apostrophe + 1..])),
        None => None,
    }
}

fn first_apostrophe(text: &[u8]) -> Option<usize>
    ensures { result ≡ position (λ b. b == 39) text.now }
{
    text.iter().position(|octet| *octet == b'\'')
}

// Whether each `%` stands before two hexadecimal digits.
fn has_whole_escapes(text: &[u8]) -> bool
    ensures { IsTrue result ↔ HasWholeEscapes text.now }
{
    for i in 0..text.len() {
        if !is_whole_at(text, i) {
            return false;
        }
    }
    true
}

fn is_whole_at(text: &[u8], i: usize) -> bool
    requires { i < length text.now }
    ensures { IsTrue result ↔ (slice_index text.now i ≡ 37 → HasTwoDigitsAfter text.now i) }
{
    text[i] != b'%' || has_two_digits_after(text, i)
}

fn has_two_digits_after(text: &[u8], i: usize) -> bool
    requires { i < length text.now }
    ensures { IsTrue result ↔ HasTwoDigitsAfter text.now i }
{
    text.len() - i > 2 && text[i + 1].is_ascii_hexdigit() && text[i + 2].is_ascii_hexdigit()
}
