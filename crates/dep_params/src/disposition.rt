//! What a Content-Disposition field says.
ghost use Rattle.std.specs.Prelude.{◌≡◌};
ghost use Rattle.std.specs.Str.{str_eq_ignore_ascii_case};
ghost use Rattle.dep_params.specs.Faults.{parameter_fault_number};

use std::alloc::{AllocError, AllocFailed};
use std::error::Error;
use std::fmt;
use std::marker::Model;

/// Why a Content-Disposition field, or the file name in it, is refused.
#[derive(Clone, Copy, Debug)]
pub enum ParamFault {
    /// The text is no disposition.
    Malformed,
    /// Two parameters have one name.
    Repeated,
    /// There is no file name, or none that may stand.
    NoName,
    /// Memory was refused.
    Memory,
}

impl ParamFault {
    /// The number of the fault: 1 to 4.
    pub fn number(self) -> u8
        ensures { result ≡ parameter_fault_number self }
    {
        match self {
            ParamFault::Malformed => 1,
            ParamFault::Repeated => 2,
            ParamFault::NoName => 3,
            ParamFault::Memory => 4,
        }
    }
}

impl fmt::Display for ParamFault {
    fn fmt<W: fmt::Write>(&self, f: &mut fmt::Formatter<W>) -> fmt::Result {
        f.write_str(match self {
            ParamFault::Malformed => "the text is no disposition",
            ParamFault::Repeated => "two parameters have one name",
            ParamFault::NoName => "there is no file name that may stand",
            ParamFault::Memory => "out of memory",
        })
    }
}

impl Error for ParamFault {}

/// A parameter: its name in lower case, and its value without quotation marks and escapes.
#[derive(Drop)]
pub(crate) struct Parameter {
    pub name: Vec<u8>,
    pub value: Vec<u8>,
}

/// What a Content-Disposition field says. It keeps copies, and not the text that it was read from.
#[derive(Drop)]
pub struct Disposition {
    form: Vec<u8>,
    parameters: Vec<Parameter>,
}

impl Model for Disposition {
    ghost use Rattle.dep_params.specs.Grammar.{DispositionValue};
    ghost use Rattle.dep_params.specs.Stored.{views};

    ghost Value = { DispositionValue };

    ghost view = { λ d. record { form = d.form.items; parameters = views d.parameters.items } };
}

impl Disposition {
    ghost use Rattle.std.specs.Option.{option_copied};
    ghost use Rattle.dep_params.specs.Grammar.{DispositionValue, parameter_value};
    ghost use Rattle.dep_params.specs.Stored.{views};

    pub(crate) fn of(form: Vec<u8>, parameters: Vec<Parameter>) -> Disposition
        ensures form { result.form ≡ form.items }
        ensures parameters { result.parameters ≡ views parameters.items }
    {
        Disposition { form, parameters }
    }

    /// The type in lower case, as `attachment` (RFC 6266, section 4.2).
    pub fn form(&self) -> &[u8]
        ensures { result.now ≡ self.now.form }
    {
        &self.form
    }

    /// The value of the parameter with this name, in any letter case. It is without quotation marks and escapes; a
    /// `filename*` is as it was written. It takes no memory.
    pub fn parameter(&self, name: &[u8]) -> Option<&[u8]>
        ensures { option_copied result ≡ parameter_value name.now self.now }
    {
        for parameter in &self.parameters {
            if has_name(parameter, name) {
                return Some(&parameter.value);
            }
        }
        None
    }
}

fn has_name(parameter: &Parameter, name: &[u8]) -> bool
    ensures { result ≡ str_eq_ignore_ascii_case parameter.now.name.items name.now }
{
    parameter.name.eq_ignore_ascii_case(name)
}

impl From<AllocError> for ParamFault {
    ghost use Rattle.dep_params.specs.declared.disposition.ParamFault.TheVariants.{Memory};

    ghost from_gives = { λ _ e. e ≡ Memory };

    fn from(_error: AllocError) -> ParamFault {
        ParamFault::Memory
    }
}

impl<T: Drop> From<AllocFailed<T>> for ParamFault {
    ghost use Rattle.dep_params.specs.declared.disposition.ParamFault.TheVariants.{Memory};

    ghost from_gives = { λ _ e. e ≡ Memory };

    fn from(_error: AllocFailed<T>) -> ParamFault {
        ParamFault::Memory
    }
}
