//! What replies say: the answers to all requests, and their bytes.
#![tactic(auto)]

mod accepting;
mod answer;
mod bags;
pub mod laws;
mod measured;
mod objects;
mod performed;
mod read_set;
mod refusing;
mod service;
mod stored;
mod uploads;

pub use accepting::accepted;
pub use performed::{Delivery, FileId, Performed, StoredFile};
pub use read_set::{ReadSet, Shown};
pub use refusing::refused;
pub use service::Service;
