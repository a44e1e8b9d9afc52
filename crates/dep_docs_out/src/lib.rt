//! The documents that the server writes: compact JSON (RFC 8259) with the members in the order of their names' bytes.
//! Each function that can fail fails for lack of memory alone.
#![tactic(auto)]

mod document;
mod error;
pub mod laws;
mod metadata;
mod service;
mod spelled_moment;
mod status;
mod upload;
mod urls;

pub use error::error_doc;
pub use metadata::{bag_metadata_doc, metadata_doc};
pub use service::service_doc;
pub use status::status_doc;
pub use upload::upload_doc;
pub use urls::{object_url, upload_url};
