//! Contents that come in blocks.

ghost use Rattle.std.specs.Prelude.{◌≡◌, ◌<◌, ◌^◌, ℕ, List, length, slice_index_or, []};
ghost use Rattle.dep_row_maps.specs.Stored.{blocks_of};

use dep_fixity::HashedOctets;

/// How many bytes each block of a content has but the last.
pub const BLOCK_SIZE: usize = 65_536;

/// The bytes of a content, in blocks. The last block may be shorter, and an empty content has none.
pub trait Content {
    /// The bytes.
    ghost bytes: { Self → List ℕ };

    /// How many blocks there are: fewer than 2^63, so that each place is a number of the tables.
    fn count(&self) -> usize
        ensures exact { result ≡ length (blocks_of (bytes self.now)) }
        ensures few { result < 2 ^ 63 };

    /// The block at this place, from 0.
    fn block(&self, place: usize) -> &[u8]
        requires { place < length (blocks_of (bytes self.now)) }
        ensures { result.now ≡ slice_index_or (blocks_of (bytes self.now)) place [] };
}

impl Content for HashedOctets {
    ghost bytes = { λ octets. octets };

    fn count(&self) -> usize {
        self.as_slice().len().div_ceil(BLOCK_SIZE)
    }

    fn block(&self, place: usize) -> &[u8] {
        let octets = self.as_slice();
        let start = place * BLOCK_SIZE;
        let end = octets.len().min(start + BLOCK_SIZE);
        &octets[start..end]
    }
}
