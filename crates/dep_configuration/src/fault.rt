//! Why a configuration is refused.
ghost use Rattle.std.specs.Prelude.{◌≡◌};

use crate::field::ConfigurationField;
use std::alloc::AllocError;
use std::error::Error;
use std::fmt;

/// Why a configuration is refused. It is displayed as one line, which begins with the field's name.
#[derive(Drop)]
pub enum ConfigurationFault {
    /// The text isn't JSON (RFC 8259).
    Malformed,
    /// The text is JSON, and no object.
    NotObject,
    /// There is no field of this name.
    Unknown(String),
    /// The field of this name is given twice.
    Repeated(String),
    /// This field has to be given.
    Missing(ConfigurationField),
    /// This field is given, and isn't what it has to be.
    Invalid(ConfigurationField),
    /// There was no memory.
    Memory,
}

impl fmt::Display for ConfigurationFault {
    fn fmt<W: fmt::Write>(&self, f: &mut fmt::Formatter<W>) -> fmt::Result {
        let text = match self {
            ConfigurationFault::Malformed => "the configuration is not JSON",
            ConfigurationFault::NotObject => "the configuration is not an object",
            ConfigurationFault::Unknown(name) => {
                return write!(f, "{name:?}: there is no field of this name");
            }
            ConfigurationFault::Repeated(name) => {
                return write!(f, "{name}: the field is given twice");
            }
            ConfigurationFault::Missing(field) => return write_wanted(f, *field, ": missing; "),
            ConfigurationFault::Invalid(field) => return write_wanted(f, *field, ": "),
            ConfigurationFault::Memory => "out of memory",
        };
        f.write_str(text)
    }
}

// The name of a field, and what it has to be.
fn write_wanted<W: fmt::Write>(
    f: &mut fmt::Formatter<W>,
    field: ConfigurationField,
    between: &str,
) -> fmt::Result {
    write!(f, "{}{between}{}", field.name(), field.wanted())
}

impl fmt::Debug for ConfigurationFault {
    fn fmt<W: fmt::Write>(&self, f: &mut fmt::Formatter<W>) -> fmt::Result {
        fmt::Display::fmt(self, f)
    }
}

impl Error for ConfigurationFault {}

impl From<AllocError> for ConfigurationFault {
    ghost use Rattle.dep_configuration.specs.declared.fault.ConfigurationFault.TheVariants.{Memory};

    ghost from_gives = { λ _ e. e ≡ Memory };

    fn from(_error: AllocError) -> ConfigurationFault {
        ConfigurationFault::Memory
    }
}

impl From<json::Error> for ConfigurationFault {
    ghost use Rattle.dep_configuration.specs.Faults.{fault_of_json};

    ghost from_gives = { λ error e. e ≡ fault_of_json error };

    fn from(error: json::Error) -> ConfigurationFault {
        match error {
            json::Error::OutOfMemory => ConfigurationFault::Memory,
            _ => ConfigurationFault::Malformed,
        }
    }
}
