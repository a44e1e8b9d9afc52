//! What a server is set up with.
ghost use Rattle.std.specs.Prelude.{◌↔◌, IsTrue};
ghost use Rattle.dep_types.specs.Limits.{IsLimit};

use crate::base::check_base;
use crate::text::Text;
use std::alloc::Global;
use std::error::Error;
use std::fmt;

/// The greatest content of one request, in bytes.
pub const GREATEST_MAX_UPLOAD: u64 = 16_777_216;

/// The greatest file that may be assembled from segments, in bytes.
pub const GREATEST_MAX_ASSEMBLED: u64 = 17_179_869_184;

/// The greatest number of segments of an upload.
pub const GREATEST_MAX_SEGMENTS: u64 = 10_000;

/// The longest time that an upload may be left alone, in seconds: a year of 365 days.
pub const GREATEST_STAGING_MAX_IDLE: u64 = 31_536_000;

/// What a server is set up with: its base, its texts, what it allows, and its limits.
#[derive(Drop)]
pub struct Config {
    /// The URL that all of the server's URLs begin with, without a slash at its end.
    pub base: Text,
    /// The title in the service document.
    pub title: Text,
    /// The abstract in the service document.
    pub abstract_text: Text,
    /// The name under which files are deposited.
    pub depositor: Text,
    /// Whether a request may be made on behalf of another.
    pub on_behalf_of: bool,
    /// Whether a change asks for the entity tag of what it changes.
    pub require_if_match: bool,
    /// The greatest content of a request, in bytes.
    pub max_upload: u64,
    /// The greatest file that may be assembled from segments, in bytes.
    pub max_assembled: u64,
    /// The greatest number of segments of an upload.
    pub max_segments: u64,
    /// The seconds after which an upload that was left alone expires.
    pub staging_max_idle: u64,
}

/// Why a configuration is refused.
#[derive(Clone, Copy, Debug)]
pub enum ConfigFault {
    /// The base is not an `http` URL whose own text is the base and a slash.
    Base,
    /// A limit is 0, or above the greatest that is allowed.
    Limit,
    /// There was no memory for the check.
    Memory,
}

impl ConfigFault {
    ghost use Rattle.std.specs.Prelude.{◌≡◌};
    ghost use Rattle.dep_types.specs.Config.{config_fault_number};

    /// The number of the fault, 1 to 3.
    pub fn number(self) -> u8
        ensures { result ≡ config_fault_number self }
    {
        match self {
            ConfigFault::Base => 1,
            ConfigFault::Limit => 2,
            ConfigFault::Memory => 3,
        }
    }
}

impl fmt::Display for ConfigFault {
    fn fmt<W: fmt::Write>(&self, f: &mut fmt::Formatter<W>) -> fmt::Result {
        f.write_str(match self {
            ConfigFault::Base => "the base is not the URL of a server",
            ConfigFault::Limit => "a limit is not in its range",
            ConfigFault::Memory => "out of memory",
        })
    }
}

impl Error for ConfigFault {}

impl Config {
    ghost use Rattle.std.specs.Prelude.{◌≡◌, OnOk, Err};
    ghost use Rattle.dep_types.specs.Base.{IsBase};
    ghost use Rattle.dep_types.specs.Config.{IsChecked, HasLimits};

    /// Returns `Ok` where a server can be set up so. Else it returns the first fault: `Base` or `Memory` for
    /// the base, then `Limit`.
    pub fn check(&self, alloc: Global) -> Result<(), ConfigFault>
        ensures checked { OnOk result (IsChecked self.now) }
        ensures base { result ≡ Err ConfigFault.Base → ¬ IsBase self.now.base }
        ensures limit { result ≡ Err ConfigFault.Limit →
            IsBase self.now.base × (¬ HasLimits self.now) }
    {
        check_base(alloc, self.base.as_str())?;
        if !self.has_limits() {
            return Err(ConfigFault::Limit);
        }
        Ok(())
    }

    fn has_limits(&self) -> bool
        ensures { IsTrue result ↔ HasLimits self.now }
    {
        is_limit(self.max_upload, GREATEST_MAX_UPLOAD)
            && is_limit(self.max_assembled, GREATEST_MAX_ASSEMBLED)
            && is_limit(self.max_segments, GREATEST_MAX_SEGMENTS)
            && is_limit(self.staging_max_idle, GREATEST_STAGING_MAX_IDLE)
    }
}

fn is_limit(limit: u64, greatest: u64) -> bool
    ensures { IsTrue result ↔ IsLimit limit greatest }
{
    1 <= limit && limit <= greatest
}
