//! Quoted strings.
ghost use Rattle.std.specs.Prelude.{◌≡◌, ◌<◌, true, false, length, MatchResult, IfOk};
ghost use Rattle.dep_params.specs.Grammar.{is_control};
ghost use Rattle.dep_params.specs.Reading.{IsReadingFault, Gives, quoted, stepped};

use crate::disposition::ParamFault;
use std::alloc::Global;

// Reads a quoted string behind its first quotation mark: the octets that it represents, and what follows it.
pub(crate) fn read_quoted(alloc: Global, text: &[u8]) -> Result<(Vec<u8>, &[u8]), ParamFault>
    ensures { Gives (λ x. (x.0.items, x.1.now)) result (quoted false text.now) }
{
    let mut value = Vec::new(alloc);
    let mut rest = text;
    loop {
        let (octet, after) = next_octet(rest)?;
        let Some(octet) = octet else {
            return Ok((value, after));
        };
        value.push(octet)?;
        rest = after;
    }
}

// The next octet that a quoted string represents, or none at its last quotation mark, and what follows.
#[tactic(auto, unfolding(crate::specs::Reading::quoted))]
fn next_octet(text: &[u8]) -> Result<(Option<u8>, &[u8]), ParamFault>
    ensures read { MatchResult result (λ x. quoted false text.now ≡ stepped x.0 x.1.now)
        (λ e. IsReadingFault e (quoted false text.now)) }
    ensures shorter { IfOk result (λ x. length x.1.now < length text.now) }
{
    let Some((first, after)) = text.split_first() else {
        return Err(ParamFault::Malformed);
    };
    match *first {
        b'"' => Ok((None, after)),
        b'\\' => escaped_octet(after),
        octet if is_control(octet) && octet != b'\t' => Err(ParamFault::Malformed),
        octet => Ok((Some(octet), after)),
    }
}

// The octet behind a backslash, and what follows.
#[tactic(auto, unfolding(crate::specs::Reading::quoted))]
fn escaped_octet(text: &[u8]) -> Result<(Option<u8>, &[u8]), ParamFault>
    ensures read { MatchResult result (λ x. quoted true text.now ≡ stepped x.0 x.1.now)
        (λ e. IsReadingFault e (quoted true text.now)) }
    ensures shorter { IfOk result (λ x. length x.1.now < length text.now) }
{
    match text.split_first() {
        Some((octet, after)) if !is_control(*octet) => Ok((Some(*octet), after)),
        _ => Err(ParamFault::Malformed),
    }
}

fn is_control(octet: u8) -> bool
    ensures { result ≡ is_control octet }
{
    octet.is_ascii_control()
}
