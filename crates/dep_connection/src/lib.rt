//! One connection over an inlet and an outlet, from its opening to its close, by a hub.
#![tactic(auto)]

mod connection;
mod flush;

pub use connection::{Served, serve_connection};
pub use flush::{Flush, FlushFailed};
