//! What the programs share: their command lines, the configuration of `swordd`, the replies of an arrival gathered for one
//! write, the folder of an export, the clock, and how a run ended.
#![tactic(auto)]

mod clock;
mod command;
mod folder;
mod folder_sink;
mod gathered;
mod host_command;
pub mod laws;
mod outcome;
mod progress;
mod setup;

pub use clock::{microseconds_since, moment_of};
pub use command::{Command, Job, ListenOptions, unread, words};
pub use folder::{Folder, without_folder};
pub use folder_sink::FolderSink;
pub use gathered::Gathered;
pub use host_command::HostCommand;
pub use outcome::{Outcome, outcome_of, outcome_sent};
pub use progress::ProgressLine;
pub use setup::{configuration, configuration_at};
