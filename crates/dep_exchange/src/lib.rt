//! One exchange over any archive: an item of an intake, and the reply to it.
#![tactic(auto)]

mod access_log;
mod archive;
mod arrived;
mod contents;
mod next;
mod rest;
mod sending;
mod serving;
mod site;
mod step;

pub use access_log::{AccessLog, NoLog};
pub use archive::{Archive, ROUNDS_TO_REPLY};
pub use arrived::Arrived;
pub use contents::Contents;
pub use next::Next;
pub use rest::Rest;
pub use sending::Answered;
pub use serving::{Piece, give_up, serve, take_next};
pub use site::{Context, Site};
