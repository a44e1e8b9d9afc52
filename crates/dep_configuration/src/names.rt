//! The names of the fields that a configuration gives.
ghost use Rattle.std.specs.Prelude.{◌≡◌, ◌⊎◌, bytes_eq, IfErr, MatchOption, OnOk};
ghost use Rattle.std.specs.List.{list_any};
ghost use Rattle.json.specs.Find.{as_object};
ghost use Rattle.json.specs.Strict.{keys};
ghost use Rattle.json.specs.Value.{members_view, value_view};
ghost use Rattle.dep_configuration.specs.declared.fault.ConfigurationFault.TheVariants.{Memory, NotObject};
ghost use Rattle.dep_configuration.specs.Names.{is_field_name, AreFieldNames, GivesFields, IsFaultOfNames};

use crate::fault::ConfigurationFault;
use crate::field::FIELDS;
use json::Value;
use std::alloc::Global;

/// Whether a value is an object whose members are fields, each of them once.
pub(crate) fn check_names(alloc: Global, value: &Value<'_>) -> Result<(), ConfigurationFault>
    ensures taken { OnOk result (GivesFields (value_view value.now)) }
    ensures refused { IfErr result (λ e. (e ≡ Memory)
        ⊎ MatchOption (as_object (value_view value.now)) (e ≡ NotObject)
        (λ members. IsFaultOfNames e (keys members))) }
{
    let Value::Object(members) = value else {
        return Err(ConfigurationFault::NotObject);
    };
    check_members(alloc, members)
}

// Of several names that are refused the first is returned.
fn check_members(alloc: Global, members: &[(&str, Value<'_>)]) -> Result<(), ConfigurationFault>
    ensures taken { OnOk result (AreFieldNames (keys (members_view members.now))) }
    ensures refused { IfErr result (λ e. (e ≡ Memory)
        ⊎ IsFaultOfNames e (keys (members_view members.now))) }
{
    for (place, member) in members.iter().enumerate() {
        if !is_field(member.0) {
            return Err(ConfigurationFault::Unknown(String::from_str(alloc, member.0)?));
        }
        if has_name(&members[..place], member.0) {
            return Err(ConfigurationFault::Repeated(String::from_str(alloc, member.0)?));
        }
    }
    Ok(())
}

fn is_field(name: &str) -> bool
    ensures { result ≡ is_field_name name.now }
{
    FIELDS.iter().any(|field| field.name() == name)
}

fn has_name(members: &[(&str, Value<'_>)], name: &str) -> bool
    ensures { result ≡ list_any (λ member. bytes_eq member.0.now name.now) members.now }
{
    members.iter().any(|member| member.0 == name)
}
