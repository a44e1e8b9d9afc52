//! The configuration of a server for many connections, read and printed, the folders that it names, and the lines of its
//! access log.
#![tactic(auto)]

mod access_log;
mod checks;
mod configuration;
mod example;
mod fault;
mod field;
mod folders;
pub mod laws;
mod names;
mod report;
mod values;

pub use access_log::{
    ClosedConnection, GREATEST_PATH, LoggedExchange, Reason, ReserveState, Start, closing_line,
    exchange_line, reserve_line, start_line,
};
pub use configuration::{Configuration, ServerLimits};
pub use example::{EXAMPLE, explain};
pub use fault::ConfigurationFault;
pub use field::{Bounds, ConfigurationField, FIELDS, Wanted};
pub use folders::{FolderFault, check_folders};
pub use report::print_configuration;
