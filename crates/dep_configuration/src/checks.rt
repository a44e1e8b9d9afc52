//! What the values of fields have to be.
ghost use Rattle.std.specs.Prelude.{◌≡◌, ◌↔◌, IsTrue, IfErr, OnOk};
ghost use Rattle.json.specs.Value.{value_view};
ghost use Rattle.dep_configuration.specs.Faults.{is_required, AreReadable, IsFaultOf, IsFirstOfFields, IsReadable, Suits};

use crate::fault::ConfigurationFault;
use crate::field::{ConfigurationField, FIELDS, Wanted};
use crate::values::whole_number;
use json::Value;
use std::net::IpAddr;

/// Returns `Ok` where each field can be read, else the fault of the first that can't, in the order of
/// `FIELDS`.
pub(crate) fn check_fields(value: &Value<'_>) -> Result<(), ConfigurationFault>
    ensures readable { OnOk result (AreReadable (value_view value.now)) }
    ensures refused { IfErr result (λ e. IsFirstOfFields e (value_view value.now)) }
{
    for field in &FIELDS {
        check_field(value, *field)?;
    }
    Ok(())
}

fn check_field(value: &Value<'_>, field: ConfigurationField) -> Result<(), ConfigurationFault>
    ensures readable { OnOk result (IsReadable field (value_view value.now)) }
    ensures refused { IfErr result (λ e. IsFaultOf field e (value_view value.now)) }
{
    let wanted = field.wanted();
    match value.get(field.name()) {
        Some(found) if wanted.suits(found) => Ok(()),
        Some(_) => Err(ConfigurationFault::Invalid(field)),
        None if wanted.is_required() => Err(ConfigurationFault::Missing(field)),
        None => Ok(()),
    }
}

impl Wanted {
    /// Whether a field has to be given of which this is wanted.
    fn is_required(self) -> bool
        ensures { result ≡ is_required self }
    {
        matches!(self, Wanted::FilledText | Wanted::Base)
    }

    /// Whether a value is what is wanted; of a base, whether it's a text.
    fn suits(self, value: &Value<'_>) -> bool
        ensures { IsTrue result ↔ Suits self (value_view value.now) }
    {
        match self {
            Wanted::AnyText | Wanted::Base => value.as_str().is_some(),
            Wanted::FilledText => matches!(value.as_str(), Some(text) if !text.is_empty()),
            Wanted::Flag => value.as_bool().is_some(),
            Wanted::Address => is_address(value),
            Wanted::WholeNumber(bounds) => whole_number(value, bounds).is_some(),
        }
    }
}

fn is_address(value: &Value<'_>) -> bool
    ensures { IsTrue result ↔ Suits Wanted.Address (value_view value.now) }
{
    match value.as_str() {
        Some(text) => text.parse::<IpAddr>().is_ok(),
        None => false,
    }
}
