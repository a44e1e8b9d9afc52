//! Moments in whole seconds since 1970, and the texts that spell them. Nothing here allocates.
#![tactic(auto)]

pub mod laws;
mod moment;

pub use moment::Moment;
