//! The tables of the store and their indexes made, and those of version 1 turned into those of version 2, inside a
//! transaction.
#![tactic(auto)]

mod indexing;
mod making;
mod upgrading;

pub use making::make_tables;
pub use upgrading::upgrade_tables;
