//! Rulings on requests: from a view of what a request touches of the archive whether it is
//! refused, or what it asks for.
#![tactic(auto)]

mod order;
mod references;
mod rules;
mod ruling;
mod view;

pub use dep_decisions::{Decision, Operation};
pub use order::{decide, refusal_before_digests};
pub use references::{segments_rule, state_rule};
pub use ruling::Ruling;
pub use view::{LiveUpload, SegmentId, Touched, UploadState, UploadView, View};
