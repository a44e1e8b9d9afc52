//! The values of the fields that a configuration gives, once each of them can be read.
ghost use Rattle.std.specs.Prelude.{◌≡◌, IfOk, IsTrue, Some, option_map};
ghost use Rattle.json.specs.Value.{value_view};
ghost use Rattle.dep_configuration.specs.Fields.{bounds_of, wanted_of};
ghost use Rattle.dep_configuration.specs.declared.field.Wanted.TheVariants.{AnyText, Flag, WholeNumber};
ghost use Rattle.dep_configuration.specs.declared.field.Wanted.TheVariants as Kind;
ghost use Rattle.dep_configuration.specs.Faults.{is_required, AreReadable, GivesField};
ghost use Rattle.dep_configuration.specs.Readings.{flag_of, given_number, given_text, number_or_default, number_within, text_or_default, IsAddressOf};

use crate::field::{Bounds, ConfigurationField};
use dep_octets::{Number, decimal};
use dep_types::Text;
use json::Value;
use std::alloc::{AllocError, Global};
use std::net::{IpAddr, Ipv4Addr};

/// A copy of the text of a field, or of the default.
pub(crate) fn text(
    alloc: Global,
    value: &Value<'_>,
    field: ConfigurationField,
    default: &'static str,
) -> Result<Text, AllocError>
    requires { GivesField field AnyText (value_view value.now) }
    ensures { IfOk result (λ text. text_or_default field default.now (value_view value.now) ≡ Some text) }
{
    Text::copied(alloc, given_text(value, field).unwrap_or(default))
}

/// A copy of the text of a field that has to be given.
pub(crate) fn required_text(
    alloc: Global,
    value: &Value<'_>,
    field: ConfigurationField,
) -> Result<Text, AllocError>
    requires readable { AreReadable (value_view value.now) }
    requires required { IsTrue (is_required (wanted_of field)) }
    ensures { IfOk result (λ text. given_text field (value_view value.now) ≡ Some text) }
{
    Text::copied(alloc, given_text(value, field).unwrap())
}

/// The truth value of a field, which is false where it isn't given.
pub(crate) fn flag(value: &Value<'_>, field: ConfigurationField) -> bool
    requires { GivesField field Flag (value_view value.now) }
    ensures { flag_of field (value_view value.now) ≡ Some result }
{
    match value.get(field.name()) {
        Some(found) => found.as_bool().unwrap_or(false),
        None => false,
    }
}

/// The IP address to listen at: 127.0.0.1 where none is given.
pub(crate) fn address(value: &Value<'_>) -> IpAddr
    requires { GivesField ConfigurationField.Address Kind.Address (value_view value.now) }
    ensures { IsAddressOf (value_view value.now) result }
{
    let Some(text) = given_text(value, ConfigurationField::Address) else {
        return IpAddr::V4(Ipv4Addr::LOCALHOST);
    };
    match text.parse::<IpAddr>() {
        Ok(address) => address,
        Err(_) => unreachable!(),
    }
}

/// The number of a field, or the default, which has to be within its bounds.
pub(crate) fn number(value: &Value<'_>, field: ConfigurationField, default: u64) -> u64
    requires { GivesField field (WholeNumber (bounds_of field)) (value_view value.now) }
    ensures { number_or_default field default (value_view value.now) ≡ Some result }
{
    given_number(value, field).unwrap_or(default)
}

/// The number that a value is, where it is one within these bounds, written by digits alone.
#[tactic(auto, unfolding(crate::specs::Readings::number_within))]
pub(crate) fn whole_number(value: &Value<'_>, bounds: Bounds) -> Option<u64>
    ensures { result ≡ number_within bounds (value_view value.now) }
{
    let text = value.as_number()?;
    match decimal(text.as_bytes(), bounds.most) {
        Number::Value(number) if bounds.least <= number => Some(number),
        _ => None,
    }
}

// The text that a field is given as.
fn given_text<'a>(value: &Value<'a>, field: ConfigurationField) -> Option<&'a str>
    ensures { option_map (λ text. text.now) result ≡ given_text field (value_view value.now) }
{
    value.get(field.name())?.as_str()
}

/// The number that a field is given as.
pub(crate) fn given_number(value: &Value<'_>, field: ConfigurationField) -> Option<u64>
    ensures { result ≡ given_number field (value_view value.now) }
{
    whole_number(value.get(field.name())?, field.bounds())
}
