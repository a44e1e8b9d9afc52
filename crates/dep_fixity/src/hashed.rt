//! Octets that are hashed while they come.
ghost use Rattle.std.specs.Prelude.{◌≡◌, ◌++◌, OnOk, OnErr};

use crate::hasher::{Digests, Hasher};
use std::alloc::{AllocError, Global};
use std::marker::Model;
use std::mem;

/// How far octets were hashed.
#[derive(Drop)]
struct Hashed {
    hasher: Hasher,
    /// How many of the octets the hasher was given.
    count: usize,
}

/// Octets, of which the first may be hashed before the last have come, so that their digests take no more
/// than the others then. Contracts see the octets alone: how many were hashed changes no result.
#[derive(Drop)]
pub struct HashedOctets {
    octets: Vec<u8>,
    hashed: Hashed,
}

impl Model for HashedOctets {
    ghost use Rattle.std.specs.Prelude.{ℕ, List};
    ghost use Rattle.dep_fixity.specs.Hashing.{IsHashed};

    ghost Value = { List ℕ };

    ghost view = { λ o. o.octets.items };

    ghost invariant = { λ o. IsHashed o.hashed o.octets.items };
}

impl HashedOctets {
    ghost use Rattle.std.specs.Prelude.{◌≡◌, ◌++◌, take, OnOk, OnErr};
    ghost use Rattle.dep_fixity.specs.Fixity.{digests_of};

    /// Takes the octets over without a copy. None of them is hashed.
    pub fn from_vec(octets: Vec<u8>) -> HashedOctets
        ensures { result ≡ octets.items }
    {
        HashedOctets {
            octets,
            hashed: Hashed::nothing(),
        }
    }

    /// Returns the octets, without a copy.
    pub fn as_slice(&self) -> &[u8]
        ensures { result.now ≡ self.now }
    {
        &self.octets
    }

    /// Takes the next octets, of which none is hashed. The room grows to twice as much at most, and up to
    /// `length` octets to no more than that. An `Err` is lack of memory.
    pub fn append(&mut self, piece: &[u8], length: usize) -> Result<(), AllocError>
        ensures ok { OnOk result (self.new ≡ self.old ++ piece.now) }
        ensures err { OnErr result (self.new ≡ self.old) }
    {
        extend(&mut self.octets, piece, length)
    }

    /// Leaves out what stands behind the first `count` octets.
    pub fn truncate(&mut self, count: usize)
        ensures { self.new ≡ take count self.old }
    {
        self.octets.truncate(count);
        self.hashed.cut_to(count);
    }

    /// Hashes the octets up to the first `end`, as far as they have come.
    pub fn hash_to(&mut self, end: usize)
        ensures { self.new ≡ self.old }
    {
        let end = end.min(self.octets.len());
        self.hashed.go_on(&self.octets, end);
    }

    /// Returns the digests of all octets. Those that weren't hashed before are hashed for it.
    pub fn digests(&self) -> Digests
        ensures { result ≡ digests_of self.now }
    {
        let mut hashed = self.hashed.copied();
        hashed.go_on(&self.octets, self.octets.len());
        hashed.hasher.finish()
    }
}

impl Hashed {
    ghost use Rattle.std.specs.Prelude.{◌≡◌, ◌≤◌, length, take, ℕ, List};
    ghost use Rattle.dep_fixity.specs.Hashing.{IsHashed};

    fn nothing() -> Hashed
        ensures { (octets : List ℕ) → IsHashed result octets }
    {
        Hashed {
            hasher: Hasher::new(),
            count: 0,
        }
    }

    fn copied(&self) -> Hashed
        ensures { result ≡ self.now }
    {
        Hashed {
            hasher: self.hasher.copied(),
            count: self.count,
        }
    }

    // Hashes the octets up to this one, unless more were hashed before.
    fn go_on(&mut self, octets: &[u8], end: usize)
        requires hashed { IsHashed self.old octets.now }
        requires within { end ≤ length octets.now }
        ensures hashed { IsHashed self.new octets.now }
        ensures end { end ≤ self.new.count }
    {
        if self.count < end {
            self.hasher.update(&octets[self.count..end]);
            self.count = end;
        }
    }

    // Begins anew where more than the first `count` octets were hashed.
    fn cut_to(&mut self, count: usize)
        ensures { (octets : List ℕ) → IsHashed self.old octets → IsHashed self.new (take count octets) }
    {
        if self.count > count {
            drop(mem::replace(self, Hashed::nothing()));
        }
    }
}

// Appends a piece. The room grows to twice as much at most, and up to `length` octets to no more than that.
fn extend(octets: &mut Vec<u8>, piece: &[u8], length: usize) -> Result<(), AllocError>
    ensures ok { OnOk result (octets.new.items ≡ octets.old.items ++ piece.now) }
    ensures err { OnErr result (octets.new.items ≡ octets.old.items) }
{
    let come = octets.len();
    if octets.capacity() - come < piece.len() {
        let twice = come.min(length.saturating_sub(come));
        octets.reserve_exact(twice.max(piece.len()))?;
    }
    octets.extend_from_slice(piece)
}
