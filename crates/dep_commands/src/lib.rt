//! What an operator has done over an archive of any kind, and how it ends: a port is served, the bag of an object is given to a
//! sink, the files of all objects are checked. An archive may have a reserve: room on its disk that is given up where a step
//! fails, so that a full disk stops deposits, and never reads and deletions.
#![tactic(auto)]

mod audit_fault;
mod exporting;
mod file_reserve;
mod lines;
mod listening;
mod reporting;
mod reserve;
mod reserved_archive;
mod serve;
mod tally;

pub use exporting::export_object;
pub use file_reserve::FileReserve;
pub use listening::{address, serve_at};
pub use reporting::audit_all;
pub use reserve::Reserve;
pub use reserved_archive::ReservedArchive;
pub use serve::serve_on;
