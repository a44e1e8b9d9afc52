//! The messages of a connection: its bytes come in pieces, and whole requests are taken from them (RFC 9112).
#![tactic(auto)]

mod first;
mod heads;
mod intake;
pub mod laws;
mod message;
mod preview;
mod progress;
mod unparsed;

pub use heads::{closes, is_without_body};
pub use intake::{Intake, Step};
pub use message::Message;
pub use preview::Preview;
