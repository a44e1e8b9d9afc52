//! Reading a Content-Disposition field.
ghost use Rattle.std.specs.Prelude.{◌≡◌, ◌≢◌, ◌⊎◌, ◌<◌, List, map, bytes_eq, IfOk, IfErr, MatchResult};
ghost use Rattle.std.specs.List.{IsDistinct};
ghost use Rattle.std.specs.Option.{option_copied};
ghost use Rattle.dep_params.specs.Grammar.{AreParameters, HasDistinctNames, IsDisposition, NamedValue, DispositionValue};
ghost use Rattle.dep_params.specs.Failing.{ReportsRepeats};
ghost use Rattle.dep_params.specs.Reading.{Gives, RefusesParameters, behind_name, named, semicolon_read, token_len, value_read};
ghost use Rattle.dep_params.specs.Stored.{names_in, view, views};

use crate::disposition::{Disposition, ParamFault, Parameter};
use crate::parts::{skip_blanks, split_bare, split_token};
use crate::quoted::read_quoted;
use std::alloc::Global;
use std::collections::BTreeSet;

/// Reads the value of a Content-Disposition field (RFC 6266, section 4.1): a type, and parameters behind semicolons.
/// White space may stand about a semicolon and at the end, not in front and not about a `=`. Nothing need stand behind a
/// semicolon. A value is a quoted string (RFC 9110, section 5.6.4), in which a backslash stands before any octet that is
/// no control, or one or more visible ASCII octets other than `;` and `"`. It fails with `Malformed` for any other
/// text, `Repeated` where two parameters have one name, and `Memory` where memory was refused.
pub fn read_disposition(alloc: Global, text: &[u8]) -> Result<Disposition, ParamFault>
    ensures read { IfOk result (λ reading.
        IsDisposition text.now reading × HasDistinctNames reading) }
    ensures malformed { result ≡ Err ParamFault.Malformed →
        (reading : DispositionValue) → ¬ IsDisposition text.now reading }
    ensures repeated { result ≡ Err ParamFault.Repeated →
        (reading : DispositionValue) × IsDisposition text.now reading × ¬ HasDistinctNames reading }
    ensures never_of_names { result ≢ Err ParamFault.NoName }

    // What doesn't begin with a type is refused without memory.
    ensures wanted { result ≡ Err ParamFault.Memory → 0 < token_len text.now }
{
    let (form, rest) = split_token(text);
    if form.is_empty() {
        return Err(ParamFault::Malformed);
    }
    let parameters = read_parameters(alloc, rest)?;
    refuse_repeats(alloc, &parameters)?;
    let form = form.to_ascii_lowercase(alloc)?;
    Ok(Disposition::of(form, parameters))
}

fn read_parameters(alloc: Global, text: &[u8]) -> Result<Vec<Parameter>, ParamFault>
    ensures read { IfOk result (λ ps. AreParameters text.now (views ps.items)) }
    ensures refused { IfErr result (RefusesParameters text.now) }
{
    let mut parameters = Vec::new(alloc);
    let mut rest = text;
    while let Some(after) = behind_semicolon(rest)? {
        rest = after;
        let (name, behind) = split_token(rest);
        if !name.is_empty() {
            let (parameter, after) = read_parameter(alloc, name, behind)?;
            parameters.push(parameter)?;
            rest = after;
        }
    }
    Ok(parameters)
}

// What follows the next semicolon and the blanks about it, or nothing at the end.
#[tactic(auto, unfolding(crate::specs::Reading::semicolon_read))]
fn behind_semicolon(text: &[u8]) -> Result<Option<&[u8]>, ParamFault>
    ensures { Gives option_copied result (semicolon_read text.now) }
{
    match skip_blanks(text).split_first() {
        None => Ok(None),
        Some((b';', after)) => Ok(Some(skip_blanks(after))),
        Some(_) => Err(ParamFault::Malformed),
    }
}

// The parameter with this name in front of the text, and what follows it.
fn read_parameter<'a>(
    alloc: Global,
    name: &[u8],
    text: &'a [u8],
) -> Result<(Parameter, &'a [u8]), ParamFault>
    ensures { Gives (λ x. (view x.0, x.1.now)) result (named name.now (behind_name text.now)) }
{
    let Some((b'=', rest)) = text.split_first() else {
        return Err(ParamFault::Malformed);
    };
    let (value, rest) = read_value(alloc, rest)?;
    let name = name.to_ascii_lowercase(alloc)?;
    Ok((Parameter { name, value }, rest))
}

// The value at the front, and what follows it.
#[tactic(auto, unfolding(crate::specs::Reading::value_read))]
fn read_value(alloc: Global, text: &[u8]) -> Result<(Vec<u8>, &[u8]), ParamFault>
    ensures { Gives (λ x. (x.0.items, x.1.now)) result (value_read text.now) }
{
    if let Some((b'"', rest)) = text.split_first() {
        return read_quoted(alloc, rest);
    }
    let (value, rest) = split_bare(text);
    if value.is_empty() {
        return Err(ParamFault::Malformed);
    }
    Ok((value.to_vec(alloc)?, rest))
}

// Fails where two parameters have one name.
fn refuse_repeats(alloc: Global, parameters: &[Parameter]) -> Result<(), ParamFault>
    ensures { MatchResult result (λ _. IsDistinct bytes_eq (names_in parameters.now))
        (ReportsRepeats (names_in parameters.now)) }
{
    let mut names: BTreeSet<&[u8]> = BTreeSet::new(alloc);
    for parameter in parameters {
        if !names.insert(&parameter.name)? {
            return Err(ParamFault::Repeated);
        }
    }
    Ok(())
}
