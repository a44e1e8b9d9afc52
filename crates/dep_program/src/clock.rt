//! The machine's clock.
ghost use Rattle.std.specs.Prelude.{◌≡◌, min};
ghost use Rattle.dep_types.specs.Limits.{greatest_moment};
ghost use Rattle.dep_program.specs.Clock.{whole_seconds};

use dep_moment::Moment;
use std::io;
use std::time::{Clock, Instant, SystemTime, UNIX_EPOCH};

/// The moment of a reading of the clock, in whole seconds since 1970; the first one where the clock can't be read.
pub fn moment_of(reading: io::Result<SystemTime>) -> Moment
    ensures { result ≡ min (whole_seconds reading) greatest_moment }
{
    match reading {
        Ok(time) => match time.duration_since(UNIX_EPOCH) {
            Ok(since) => Moment::new(since.as_secs()),
            Err(_) => Moment::new(0),
        },
        Err(_) => Moment::new(0),
    }
}

/// How long ago that was; 0 where a clock can't be read.
pub fn microseconds_since<R: Clock>(rt: &R, begun: Option<Instant>) -> u64 {
    let Some(begun) = begun else {
        return 0;
    };
    match begun.elapsed(rt) {
        Ok(elapsed) => u64::try_from(elapsed.as_micros()).unwrap_or(u64::MAX),
        Err(_) => 0,
    }
}
