//! One connection of a host: its socket's two halves, its state, and its turn.
#![tactic(auto)]

mod client;
mod connection_state;
mod limits;
mod log;
mod read_buffer;
mod slot;

pub use client::Client;
pub use connection_state::{ConnectionState, NextAction, Phase};
pub use limits::Limits;
pub use log::{Bytes, Closing, HostLog, Rejection};
pub use read_buffer::{MOST_READ, ReadBuffer};
pub use slot::{Slot, Time, Turn, TurnOutcome};
