//! What happens to an upload while it is open: segments that are put into it, and the tick of the clock, which ends it once
//! it is idle. Each call inside a transaction changes the archive's state as the machine does; after an Err the caller
//! gives the transaction back.
#![tactic(auto)]

mod segments;
mod ticking;

pub use segments::{put_segment, rewrite_upload};
pub use ticking::tick;
