//! Objects as bags (RFC 8493): their files by path, and their export.
#![tactic(auto)]

mod export_fault;
mod exporting;
mod giving;
pub mod laws;
mod part;
mod paths;
mod source;

pub use export_fault::ExportFault;
pub use exporting::export;
pub use part::{BagPart, TagFile, bag_file, tag_file};
pub use paths::{bag_paths, file_number, has_bag_path, is_payload_path};
pub use source::BagSource;
