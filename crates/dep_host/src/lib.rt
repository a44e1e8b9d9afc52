//! Many connections at once over one hub.
#![tactic(auto)]

mod ending;
mod events;
mod host;
pub mod laws;
mod place;
mod serving;
mod share;

pub use dep_slot::{
    Bytes, Client, Closing, HostLog, Limits, MOST_READ, ReadBuffer, Rejection, Time,
};
pub use ending::{Cause, Shut};
pub use events::{Event, Events, origin};
pub use host::{Host, MOST_SEATS};
pub use serving::{Ended, serve};
pub use share::MOST_SENT;
