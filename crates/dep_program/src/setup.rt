//! The configuration of the program.
ghost use Rattle.std.specs.Prelude.{◌≡◌, IfOk};
ghost use Rattle.dep_program.specs.Setup.{program_config, base_at};

use dep_types::{Config, GREATEST_MAX_ASSEMBLED, GREATEST_MAX_SEGMENTS, GREATEST_MAX_UPLOAD, Text};
use itoa::Buffer;
use std::alloc::{AllocError, Global};

const TITLE: &str = "swordd";

const ABSTRACT: &str = "Deposit service";

const DEPOSITOR: &str = "depositor";

const STAGING_MAX_IDLE: u64 = 3_600;

/// The port that a URL leaves out.
const DEFAULT_PORT: u64 = 80;

/// The configuration of the program with this base: each limit of sizes and counts is the greatest, and
/// an upload expires after an hour.
pub fn configuration(alloc: Global, base: &str) -> Result<Config, AllocError>
    ensures { IfOk result (λ config. config ≡ program_config base.now) }
{
    Ok(Config {
        base: Text::copied(alloc, base)?,
        title: Text::copied(alloc, TITLE)?,
        abstract_text: Text::copied(alloc, ABSTRACT)?,
        depositor: Text::copied(alloc, DEPOSITOR)?,
        on_behalf_of: false,
        require_if_match: false,
        max_upload: GREATEST_MAX_UPLOAD,
        max_assembled: GREATEST_MAX_ASSEMBLED,
        max_segments: GREATEST_MAX_SEGMENTS,
        staging_max_idle: STAGING_MAX_IDLE,
    })
}

/// Returns the configuration of the program at a port of 127.0.0.1. An `Err` is lack of memory.
pub fn configuration_at(alloc: Global, port: u64) -> Result<Config, AllocError>
    ensures { IfOk result (λ config. config ≡ program_config (base_at port)) }
{
    if port == DEFAULT_PORT {
        return configuration(alloc, "http://127.0.0.1");
    }
    let mut digits = Buffer::new();
    let base = ["http://127.0.0.1:", digits.format(port)].concat(alloc)?;
    configuration(alloc, base.as_str())
}
