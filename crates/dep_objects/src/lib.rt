//! The objects of the store and their metadata, as maps: each call inside a transaction reads or changes one map of the state.
//! The owner of the transaction gives it back where a call fails.
#![tactic(auto)]

mod ahead;
mod clock;
mod gathering;
mod metadata;
mod objects;

pub use ahead::{TextsAhead, read_ahead};
pub use clock::counters;
pub use metadata::{append_metadata, set_metadata};
pub use objects::{DescribedObject, add_object, delete_object, describe, find_object, put_object};
