//! Requests for resources: the rules by which they are refused, what they ask for, and what that makes
//! of the archive.
#![tactic(auto)]

mod asked;
mod content_rules;
mod decision;
pub mod laws;
mod numbers;
mod operation;
mod purpose;

pub use asked::{ReadContent, decision_on};
pub use content_rules::{digest_rule, digests_if_promised, fields_rule, is_binary};
pub use decision::{ContentSource, Decision, Deposit, NewFile};
pub use numbers::numbers_for;
pub use operation::Operation;
pub use purpose::{Purpose, content_purpose, is_completion};
