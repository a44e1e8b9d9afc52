//! Digests of contents.
use sha2::{Digest, Sha256, Sha512};

/// The digests of one message, an algorithm each.
#[derive(Clone, Copy)]
pub struct Digests {
    /// Its SHA-256 (FIPS 180-4).
    pub sha256: [u8; 32],
    /// Its SHA-512 (FIPS 180-4).
    pub sha512: [u8; 64],
}

/// Computes the digests of a message that comes in pieces.
#[derive(Drop)]
pub struct Hasher {
    sha256: Sha256,
    sha512: Sha512,
}

impl Hasher {
    ghost use Rattle.std.specs.Prelude.{◌≡◌, ℕ, List, [], ◌++◌};
    ghost use Rattle.dep_fixity.specs.Fixity.{HashesMessage, digests_of};

    /// A hasher of the message of no octets.
    pub fn new() -> Hasher
        ensures { HashesMessage result [] }
    {
        Hasher {
            sha256: Sha256::new(),
            sha512: Sha512::new(),
        }
    }

    /// A hasher that was given the same pieces.
    pub fn copied(&self) -> Hasher
        ensures { result ≡ self.now }
    {
        Hasher {
            sha256: self.sha256.clone().unwrap(),
            sha512: self.sha512.clone().unwrap(),
        }
    }

    /// Adds a piece to the end of the message. However the message is cut into pieces, its digests are the same.
    pub fn update(&mut self, piece: &[u8])
        ensures { (message : List ℕ) → HashesMessage self.old message → HashesMessage self.new (message ++ piece.now) }
    {
        self.sha256.update(piece);
        self.sha512.update(piece);
    }

    /// The digests of the pieces so far, joined in their order.
    pub fn finish(self) -> Digests
        ensures { (message : List ℕ) → HashesMessage self message → result ≡ digests_of message }
    {
        Digests {
            sha256: self.sha256.finalize(),
            sha512: self.sha512.finalize(),
        }
    }
}
