//! A database of the store, over its connection: it is opened; and outside a transaction contents are read block by block, sent as
//! they stand in the tables, or hashed again, to be compared with the digests that are kept of a file, or for the SHA-512 that
//! tables of version 1 lack.
#![tactic(auto)]

mod asking;
mod auditing;
mod hashing;
mod kept;
mod loading;
mod numbers;
mod opening;
mod query;
mod sending;
mod sizes;
mod streaming;
mod upgrading;
mod watch;

pub use auditing::{Audit, audit_files};
pub use loading::load_content;
pub use opening::{OpenFault, Schema, open};
pub use sending::stream_blocks;
pub use streaming::stream_content;
pub use upgrading::hash_files;
pub use watch::{Unwatched, Watch};
