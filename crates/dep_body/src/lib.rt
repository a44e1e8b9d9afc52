//! The body of an HTTP/1.1 request: how it is framed (RFC 9112, section 6), and its chunks (section 7.1).
//!
//! This profile's limits: a chunk line has at most 1,024 bytes with its CR LF, and the trailers at most
//! 16,384 with the last CR LF. Lines end with CR LF alone.
//!
//! `Buffer` has the bytes that came, until they are used.
#![tactic(auto)]

mod buffer;
mod fields;
mod frame;
pub mod laws;
mod left;
mod reader;
mod size;
mod stage;
mod trailers;
mod used;

pub use buffer::Buffer;
pub use fields::{framing, is_hashed_early};
pub use frame::{FrameFault, Framing};
pub use reader::{ChunkReader, Fed};
pub use used::UsedBytes;
