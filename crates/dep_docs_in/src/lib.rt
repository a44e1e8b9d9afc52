//! The documents that senders write: metadata, and references to staged uploads.
#![tactic(auto)]

mod ahead;
mod document;
mod fault;
pub mod laws;
mod metadata;
mod reference;
mod references;

pub use ahead::ReferencesAhead;
pub use fault::DocFault;
pub use metadata::read_metadata;
pub use reference::{DEFAULT_MEDIA, Pointed, Reference};
pub use references::read_references;
