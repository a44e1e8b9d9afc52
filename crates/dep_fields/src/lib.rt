//! What the fields of SWORD 3.0 in a request's head say: each is absent, bad, or its value; and the tags that If-Match names
//! (RFC 9110, section 13.1.1).
#![tactic(auto)]

mod field;
mod fields;
mod if_match;
mod kind;
pub mod laws;
mod opening;
mod values;

pub use field::Field;
pub use fields::SwordFields;
pub use if_match::IfMatch;
pub use kind::{Kind, Opening, is_by_reference};
