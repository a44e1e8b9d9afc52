//! The head of a reply (RFC 9112, section 2.1): its status line and its fields.
#![tactic(auto)]

mod head;
pub mod laws;
mod reply;
mod status;

pub use head::spell_head;
pub use reply::Reply;
pub use status::Status;
