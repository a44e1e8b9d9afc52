//! The head of an HTTP/1.x request (RFC 9112, sections 2, 3 and 5): where it ends, and what it says.
//!
//! A head ends at its first CR LF CR LF. It has at most 16,384 bytes, that end included, and at most
//! 64 fields; `httparse` in its default settings reads it as complete at just that length; its target
//! is one that `http_uri` reads. HTTP/1.1 has exactly one Host field, HTTP/1.0 at most one.
#![tactic(auto)]

mod end;
mod fields;
mod head;
pub mod laws;

pub use end::{HEAD_LIMIT, find_end};
pub use fields::Values;
pub use head::{Head, HeadFault, read_head};
