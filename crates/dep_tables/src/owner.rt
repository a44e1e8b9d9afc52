//! Whose a block or a SHA-512 is, and the key of a block.

ghost use Rattle.std.specs.Prelude.{◌≡◌, ◌↔◌, ◌+◌, ◌-◌, ◌<◌, ◌^◌, min, IsTrue};
ghost use Rattle.sqlite.specs.Values.{bound};
ghost use Rattle.dep_tables.specs.Rows.{owner_kind, owner_number, owner_values, key_values, IsStorableOwner, IsStorablePart, IsStorableKey, part_values};

use crate::numbers::{LIMIT, number};
use sqlite::types::ValueRef;

/// Whose a block or a SHA-512 is: a file's, or a staged upload's.
#[derive(Clone, Copy)]
pub enum BlockOwner {
    /// The file of this number.
    File(u64),
    /// The staged upload of this number.
    Upload(u64),
}

/// The place of a block among those of its owner.
#[derive(Clone, Copy)]
pub struct BlockPlace {
    /// The number of the segment, or 1 where the content came whole.
    pub part: u64,
    /// The place of the block in its part, from 0.
    pub place: u64,
}

/// How many places one statement on a run of blocks goes over, so that it holds few rows.
pub const RUN_LENGTH: u64 = 8;

/// The key of a block: whose it is, and its place there.
#[derive(Clone, Copy)]
pub struct BlockKey {
    /// Whose block it is.
    pub owner: BlockOwner,
    /// Where it stands among the blocks of the owner.
    pub at: BlockPlace,
}

fn kind_number(owner: BlockOwner) -> u64
    ensures is { result ≡ owner_kind owner }
    ensures small { result < 2 }
{
    match owner {
        BlockOwner::File(_) => 0,
        BlockOwner::Upload(_) => 1,
    }
}

fn owner_number(owner: BlockOwner) -> u64
    ensures { result ≡ owner_number owner }
{
    match owner {
        BlockOwner::File(file) => file,
        BlockOwner::Upload(upload) => upload,
    }
}

/// Whether SQL keeps its number: one below 2^63.
pub fn is_storable_owner(owner: BlockOwner) -> bool
    ensures { IsTrue result ↔ IsStorableOwner owner }
{
    owner_number(owner) < LIMIT
}

/// Where the run of blocks ends that begins here: behind as many places of the same part. SQL keeps
/// both numbers.
pub fn run_end(start: BlockPlace) -> BlockPlace
    ensures part { result.part ≡ min start.part (2 ^ 63 - 1) }
    ensures place { result.place ≡ min (start.place + 8) (2 ^ 63 - 1) }
{
    BlockPlace {
        part: start.part.min(LIMIT - 1),
        place: start.place.saturating_add(RUN_LENGTH).min(LIMIT - 1),
    }
}

pub(crate) fn is_storable_part(owner: BlockOwner, part: u64) -> bool
    ensures { IsTrue result ↔ IsStorablePart owner part }
{
    is_storable_owner(owner) && part < LIMIT
}

pub(crate) fn is_storable_key(key: &BlockKey) -> bool
    ensures { IsTrue result ↔ IsStorableKey key.now }
{
    is_storable_owner(key.owner) && key.at.part < LIMIT && key.at.place < LIMIT
}

/// The kind and the number of an owner, as parameters of a statement.
pub fn owner_params(owner: BlockOwner) -> [ValueRef<'static>; 2]
    requires { IsStorableOwner owner }
    ensures { bound result ≡ owner_values owner }
{
    [
        ValueRef::Int(number(kind_number(owner))),
        ValueRef::Int(number(owner_number(owner))),
    ]
}

pub(crate) fn part_params(owner: BlockOwner, part: u64) -> [ValueRef<'static>; 3]
    requires { IsStorablePart owner part }
    ensures { bound result ≡ part_values owner part }
{
    [
        ValueRef::Int(number(kind_number(owner))),
        ValueRef::Int(number(owner_number(owner))),
        ValueRef::Int(number(part)),
    ]
}

pub(crate) fn key_params(key: &BlockKey) -> [ValueRef<'static>; 4]
    requires { IsStorableKey key.now }
    ensures { bound result ≡ key_values key.now }
{
    [
        ValueRef::Int(number(kind_number(key.owner))),
        ValueRef::Int(number(owner_number(key.owner))),
        ValueRef::Int(number(key.at.part)),
        ValueRef::Int(number(key.at.place)),
    ]
}
