//! The archive on SQLite: what requests and the clock make of it, in one transaction each, and what a
//! crash leaves of that; the same store as an `Archive`, which hashes segments between requests.
#![tactic(auto)]

mod archive;
mod audit_source;
mod caching;
mod log_copy;
mod migrating;
mod read_transaction;
mod reading;
mod sending;
mod sending_on;
mod source;
mod store;
mod tasks;
mod ticking;

pub use archive::HashingStore;
pub use audit_source::AuditSource;
pub use dep_schema::{Unwatched, Watch};
pub use store::Store;
