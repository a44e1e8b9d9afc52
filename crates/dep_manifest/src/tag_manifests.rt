//! The tag manifests of a bag (RFC 8493, section 2.2.1).
ghost use Rattle.std.specs.Prelude.{IfOk};
ghost use Rattle.dep_docs_out.specs.Made.{MakesItems};
ghost use Rattle.dep_manifest.specs.Reported.{AreTagManifests, reported_tag_manifest};

use crate::algorithm::Algorithm;
use crate::lines::add_line;
use crate::paths::{BAG_INFO, BAGIT, MANIFEST_SHA256, MANIFEST_SHA512, METADATA};
use crate::payload::payload_manifest;
use crate::tag_files::{declaration, information};
use dep_docs_out::bag_metadata_doc;
use dep_fixity::{Hasher, to_hex, to_hex512};
use dep_types::ObjectView;
use std::alloc::{AllocError, Global};

/// The texts of both tag manifests.
#[derive(Drop)]
pub struct TagManifests {
    /// `tagmanifest-sha256.txt`.
    pub sha256: Vec<u8>,
    /// `tagmanifest-sha512.txt`.
    pub sha512: Vec<u8>,
}

impl TagManifests {
    ghost use Rattle.std.specs.Prelude.{ℕ, List, OnOk};
    ghost use Rattle.dep_docs_out.specs.Made.{MakesItems};
    ghost use Rattle.dep_manifest.specs.Reported.{AddsLines, AddsTagFiles};

    // Adds the lines of a file with these bytes, where they could be made.
    fn add_file(&mut self, path: &str, made: Result<Vec<u8>, AllocError>) -> Result<(), AllocError>
        ensures { (bytes : List ℕ) → MakesItems made bytes
            → OnOk result (AddsLines self.old self.new (path.now, bytes)) }
    {
        let bytes = made?;
        let mut hasher = Hasher::new();
        hasher.update(bytes.as_slice());
        let digests = hasher.finish();
        drop(bytes);
        add_line(&mut self.sha256, path, &to_hex(&digests.sha256))?;
        add_line(&mut self.sha512, path, &to_hex512(&digests.sha512))
    }

    // Adds the lines of each file that a tag manifest names. Each is made once, hashed once for both, and dropped before
    // the next is made.
    fn add_files(&mut self, alloc: Global, view: &ObjectView) -> Result<(), AllocError>
        ensures { OnOk result (AddsTagFiles view.now self.old self.new) }
    {
        self.add_file(BAGIT, declaration(alloc))?;
        self.add_file(BAG_INFO, information(alloc, view))?;
        self.add_file(
            MANIFEST_SHA256,
            payload_manifest(alloc, view, Algorithm::Sha256),
        )?;
        self.add_file(
            MANIFEST_SHA512,
            payload_manifest(alloc, view, Algorithm::Sha512),
        )?;
        self.add_file(METADATA, bag_metadata_doc(alloc, &view.metadata))
    }
}

/// Returns both tag manifests.
pub fn both_tag_manifests(alloc: Global, view: &ObjectView) -> Result<TagManifests, AllocError>
    ensures { IfOk result (AreTagManifests view.now) }
{
    let mut texts = TagManifests {
        sha256: Vec::new(alloc),
        sha512: Vec::new(alloc),
    };
    texts.add_files(alloc, view)?;
    Ok(texts)
}

/// Returns the tag manifest of one algorithm.
pub fn tag_manifest(
    alloc: Global,
    view: &ObjectView,
    algorithm: Algorithm,
) -> Result<Vec<u8>, AllocError>
    ensures { MakesItems result (reported_tag_manifest algorithm view.now) }
{
    let TagManifests { sha256, sha512 } = both_tag_manifests(alloc, view)?;
    match algorithm {
        Algorithm::Sha256 => Ok(sha256),
        Algorithm::Sha512 => Ok(sha512),
    }
}
