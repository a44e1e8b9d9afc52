//! The algorithms of a bag's manifests.

/// An algorithm whose digests a manifest has (RFC 8493, section 2.4).
#[derive(Clone, Copy)]
pub enum Algorithm {
    /// SHA-256 (FIPS 180-4).
    Sha256,
    /// SHA-512 (FIPS 180-4).
    Sha512,
}
