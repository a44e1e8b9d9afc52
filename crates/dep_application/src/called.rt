//! The name by which the program was called.
ghost use Rattle.std.specs.Prelude.{◌↔◌, IsTrue};
ghost use Rattle.dep_application.specs.Called.{IsHostName};

use std::rt::Env;

const HOST_NAME: &[u8] = b"swordd_host";

/// The same behind a folder.
const HOST_NAME_BEHIND: &[u8] = b"/swordd_host";

/// The longest path by which Linux starts a program.
const LONGEST_PATH: usize = 4_096;

/// Whether the program was called as `swordd_host`, behind any folder. It needs no memory, and the other words may be anything.
pub fn is_called_host(rt: &HostRuntime) -> bool {
    let mut path = [0; LONGEST_PATH];
    match rt.arg(0, &mut path) {
        Ok(length) => is_host_name(&path[..length]),
        Err(_) => false,
    }
}

/// Whether the last part of the path is `swordd_host`.
fn is_host_name(path: &[u8]) -> bool
    ensures { IsTrue result ↔ IsHostName path.now }
{
    path == HOST_NAME || path.ends_with(HOST_NAME_BEHIND)
}
