//! `swordd`, the deposit server of a repository: SWORD 3.0 over HTTP/1.1. Called as `swordd_host`, it is the server for many
//! connections at once.
#![tactic(auto)]

pub use dep_application::{replay, replay_gathered};
use dep_application::{is_called_host, run_command, run_host};
pub use dep_commands::{audit_all, export_object, serve_on};
pub use dep_program::Outcome;
use std::process::ExitCode;

/// Runs the program that it was called as, and exits with the status of how that ended.
fn main(rt: HostRuntime) -> ExitCode {
    let outcome = if is_called_host(&rt) {
        run_host(&rt)
    } else {
        run_command(&rt)
    };
    ExitCode::from(outcome.status())
}
