//! The tag files of a bag: its declaration, `bag-info.txt`, and its manifests (RFC 8493, section 2); and the
//! files that an audit finds damaged by their digests.
#![tactic(auto)]

mod algorithm;
mod damaged;
pub mod laws;
mod lengths;
mod lines;
mod paths;
mod payload;
mod tag_files;
mod tag_manifests;

pub use algorithm::Algorithm;
pub use damaged::{KeptDigests, note_damaged};
pub use lengths::{payload_manifest_length, tag_manifest_length};
pub use paths::{
    BAG_INFO, BAGIT, MANIFEST_SHA256, MANIFEST_SHA512, METADATA, TAG_MANIFEST_SHA256,
    TAG_MANIFEST_SHA512, payload_path,
};
pub use payload::payload_manifest;
pub use tag_files::{declaration, information};
pub use tag_manifests::{TagManifests, both_tag_manifests, tag_manifest};
