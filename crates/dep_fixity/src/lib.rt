//! Digests that a request promises, the digests of what came, and how a digest is written. But for room for octets (`HashedOctets`), nothing here allocates.
#![tactic(auto)]

mod field;
mod hashed;
mod hasher;
pub mod laws;
mod spelling;

pub use field::{DigestFault, DigestList, check, read_digest_field};
pub use hashed::HashedOctets;
pub use hasher::{Digests, Hasher};
pub use spelling::{to_base64, to_hex, to_hex512};
