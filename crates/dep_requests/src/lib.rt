//! What is done for a request over the archive's tables, inside one transaction: it is ruled on, its decision is carried out, and
//! its reply is made; and what may be cached between requests, so that one for the service document needs none. The owner of the
//! transaction gives it back where a call fails.
#![tactic(auto)]

mod caching;
mod carrying;
mod change;
mod created;
mod deposits;
mod known;
mod new_files;
mod objects;
mod performing;
mod showing;
mod uploads;

pub use caching::{Cache, cached, clock_still, read_still, still_known};
pub use carrying::carry_out;
pub use known::{known_after, row_after};
pub use performing::{Done, answer_operation, prepare};
pub use showing::{file_shown, is_plain_read, show_service};
