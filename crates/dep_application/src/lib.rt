//! The two servers as they are run: what the words of `swordd` and `swordd_host` ask for, done over the system's files, sockets
//! and clocks. A database in a file is opened for it, served, exported from or audited, and closed behind it.
#![tactic(auto)]

mod called;
mod commands;
mod examination;
mod held_lines;
mod host;
mod host_log;
mod hosting;
mod logged_reserve;
mod progress;
mod replaying;
mod reserved_hub;
mod service;
mod start;
mod starting;
mod store_file;
mod working;

pub use called::is_called_host;
pub use commands::run_command;
pub use host::run_host;
pub use replaying::{replay, replay_gathered};
