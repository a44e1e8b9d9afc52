//! Which resource a path names, and which methods it has.
#![tactic(auto)]

mod bag_paths;
mod methods;
mod pages;
mod reading;
mod routed;

pub use methods::Allow;
pub use routed::{Routed, Routes};
