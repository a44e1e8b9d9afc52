//! What waits to be sent to a client: a socket whose calls never wait, and the bytes that it hasn't taken yet.
#![tactic(auto)]

mod backlog;
mod socket;
mod spool;
mod wire;

pub use socket::{Delivered, Halts, Received, Sink, Source};
pub use spool::{Spool, SpoolFailed};
pub use wire::{Flushed, Wire};
