//! All connections over one store, from the bytes of requests to the bytes of replies.
#![tactic(auto)]

mod claim;
mod connections;
mod faults;
mod hub;
mod keeping;
pub mod laws;
mod pending;
mod prepared_first;
mod preparing;
mod rest;
mod sent_on;

pub use connections::ConnId;
pub use dep_exchange::{AccessLog, Archive, Arrived, Next, NoLog, ROUNDS_TO_REPLY};
pub use faults::{ConnectFault, HubFault};
pub use hub::Hub;
pub use sent_on::SentOn;
