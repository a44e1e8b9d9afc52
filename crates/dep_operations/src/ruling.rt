//! Rulings.

use dep_decisions::Decision;
use dep_types::Refusal;

/// What the rules say of a request: what it asks for, or why it is refused.
#[derive(Drop)]
pub enum Ruling {
    /// It is accepted, and asks for this.
    Do(Decision),
    /// It is refused, and changes nothing.
    Refuse(Refusal),
}
