//! The records, outcomes and interfaces that every layer of the server speaks of.
#![tactic(auto)]

mod bag_sink;
mod base;
mod config;
mod counters;
mod inlet;
pub mod laws;
mod limits;
mod list;
mod metadata;
mod names;
mod octets;
mod outlet;
mod reader_inlet;
mod refusal;
mod rows;
mod store_fault;
mod stream_fault;
mod target;
mod text;
mod through;

pub use bag_sink::{BagSink, SinkFailed};
pub use config::{
    Config, ConfigFault, GREATEST_MAX_ASSEMBLED, GREATEST_MAX_SEGMENTS, GREATEST_MAX_UPLOAD,
    GREATEST_STAGING_MAX_IDLE,
};
pub use counters::{Counters, GREATEST_NUMBER};
pub use inlet::{Inlet, LastRead, ReadFailed};
pub use limits::GREATEST_MOMENT;
pub use list::List;
pub use metadata::{Metadata, MetadataEntry};
pub use names::{BINARY_PACKAGING, METADATA_FORMAT, is_good_name, is_kept_name, is_media};
pub use octets::Octets;
pub use outlet::{Outlet, WriteFailed};
pub use reader_inlet::ReaderInlet;
pub use refusal::Refusal;
pub use rows::{FileRow, ObjectRow, ObjectView, UploadRow};
pub use store_fault::StoreFault;
pub use stream_fault::StreamFault;
pub use target::{Method, Resource, Target};
pub use text::Text;
pub use through::Through;
