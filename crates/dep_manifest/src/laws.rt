//! Laws of the lines of a manifest, apart from any code.
ghost use Rattle.std.specs.Prelude.{◌≡◌, ℕ, List, codes};
ghost use Rattle.dep_manifest.specs.Manifest.{encoded_path, sha256_digest, sha512_digest, manifest_of};
ghost use Rattle.dep_manifest.specs.ExampleManifests.{example_files, sha256_text, sha512_text};

/// Paths that differ are written differently.
pub fn encoding_keeps_apart()
    ensures { (a b : List ℕ) → encoded_path a ≡ encoded_path b → a ≡ b }
{}

/// A percent sign is written `%25`.
pub fn percent_is_encoded()
    ensures { encoded_path (codes "data/7/50%25 off%.txt") ≡ codes "data/7/50%2525 off%25.txt" }
{}

/// The line of a file of three bytes, by each algorithm.
pub fn manifest_of_example()
    ensures sha256 { manifest_of sha256_digest example_files ≡ sha256_text }
    ensures sha512 { manifest_of sha512_digest example_files ≡ sha512_text }
{}
