//! What runs in one transaction of SQLite, committed or given back: a request, or an upgrade of the tables; and what any such call,
//! and a crash, leave of them.
#![tactic(auto)]

mod committing;
mod crashes;
mod lending;
mod performing;
mod probing;
mod upgrading;

pub use committing::{commit, give_back};
pub use crashes::{began_open, settled};
pub use lending::Lent;
pub use performing::perform_request;
pub use probing::{check_open, probe};
pub use upgrading::upgrade;
