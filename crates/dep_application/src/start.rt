//! The line at the start of a server.

use dep_configuration::{ServerLimits, Start, start_line};
use dep_program::moment_of;
use std::io::Write;
use std::net::SocketAddr;
use std::time::SystemTime;

/// The version of the server.
pub const VERSION: &str = "1.0";

/// The kit that it is proved and built with, as `rt version` tells it.
pub const KIT: &str = "rattle-kit-13f logic dac8208d650f15bf";

/// Writes the line to standard error, of a server that listens at the address, and whose database took so many
/// microseconds to open. A line that can't be written is left out.
pub fn write_start(
    rt: &HostRuntime,
    address: SocketAddr,
    limits: ServerLimits,
    open_microseconds: u64,
) {
    let Ok(listened_at) = format!(in rt.alloc(); "{address}") else {
        return;
    };
    let start = Start {
        moment: moment_of(SystemTime::now(rt)).secs(),
        version: VERSION,
        address: listened_at.as_str(),
        limits,
        open_microseconds,
    };
    if let Ok(line) = start_line(rt.alloc(), &start) {
        let _ = rt.stderr().write_all(line.as_slice());
    }
}
