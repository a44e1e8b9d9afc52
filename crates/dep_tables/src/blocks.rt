//! The bytes of contents, in blocks.

ghost use Rattle.std.specs.Prelude.{◌≡◌, ◌∷◌, []};
ghost use Rattle.sqlite.specs.declared.types.Value.TheVariants.{Blob};
ghost use Rattle.sqlite.specs.Values.{bound};
ghost use Rattle.dep_tables.specs.Rows.{IsStorableOwner, IsStorableKey, block_values, move_values, move_run_values, place_values};
ghost use Rattle.dep_tables.specs.Edits.{LacksBlock};
ghost use Rattle.dep_tables.specs.Clauses.{Shows, Writes, Queries};
ghost use Rattle.dep_tables.specs.Statements.{insertion_of_block, deletion_of_blocks, deletion_of_run, move_of_blocks, move_of_run, query_of_block, query_of_first_block, query_of_last_block};

use crate::calls::Statements;
use crate::columns::ColumnKind::{self, Bytes, Number};
use crate::numbers::number_at;
use crate::owner::{
    BlockKey, BlockOwner, BlockPlace, is_storable_key, is_storable_owner, is_storable_part,
    key_params, owner_params, part_params,
};
use crate::reading::{FromRow, ask_one};
use crate::texts::copy_at;
use dep_types::StoreFault;
use sqlite::Row;
use sqlite::types::ValueRef;
use std::alloc::AllocError;

fn block_params<'a>(key: &BlockKey, bytes: &'a [u8]) -> [ValueRef<'a>; 5]
    requires { IsStorableKey key.now }
    ensures { bound result ≡ block_values key.now bytes.now }
{
    let [kind, owner, part, place] = key_params(key);
    [kind, owner, part, place, ValueRef::Blob(bytes)]
}

/// Adds a block. It is a fault of the store where there is a block of this key, and where a number is 2^63 or more.
pub fn insert_block<T: Statements>(
    tx: &mut T,
    key: &BlockKey,
    bytes: &[u8],
) -> Result<(), StoreFault>
    ensures does { Writes T.lenders T.state tx.old tx.new result (insertion_of_block key.now bytes.now) }
    ensures free { Shows (T.state tx.old) (T.state tx.new) result (LacksBlock key.now) }
{
    if !is_storable_key(key) {
        return Err(StoreFault::Store);
    }
    tx.run(
        "INSERT INTO blocks (kind, owner, part, place, bytes) VALUES (?1, ?2, ?3, ?4, ?5)",
        &block_params(key, bytes),
    )
}

/// Deletes the blocks of an owner. A number of 2^63 or more is a fault of the store.
pub fn delete_blocks<T: Statements>(tx: &mut T, owner: BlockOwner) -> Result<(), StoreFault>
    ensures does { Writes T.lenders T.state tx.old tx.new result (deletion_of_blocks owner) }
{
    if !is_storable_owner(owner) {
        return Err(StoreFault::Store);
    }
    tx.run(
        "DELETE FROM blocks WHERE kind = ?1 AND owner = ?2",
        &owner_params(owner),
    )
}

/// Deletes the blocks of a part that stand before a place. A number of 2^63 or more is a fault of the store.
pub fn delete_run<T: Statements>(tx: &mut T, end: &BlockKey) -> Result<(), StoreFault>
    ensures does { Writes T.lenders T.state tx.old tx.new result (deletion_of_run end.now) }
{
    if !is_storable_key(end) {
        return Err(StoreFault::Store);
    }
    tx.run(
        "DELETE FROM blocks WHERE kind = ?1 AND owner = ?2 AND part = ?3 AND place < ?4",
        &key_params(end),
    )
}

fn move_params(owner: BlockOwner, to: BlockOwner) -> [ValueRef<'static>; 4]
    requires owner { IsStorableOwner owner }
    requires to { IsStorableOwner to }
    ensures { bound result ≡ move_values owner to }
{
    let [kind, number] = owner_params(owner);
    let [new_kind, new_number] = owner_params(to);
    [kind, number, new_kind, new_number]
}

/// Gives the blocks of an owner to another. It is a fault of the store where that has a block of the same
/// part and place, and where a number is 2^63 or more.
pub fn move_blocks<T: Statements>(
    tx: &mut T,
    owner: BlockOwner,
    to: BlockOwner,
) -> Result<(), StoreFault>
    ensures does { Writes T.lenders T.state tx.old tx.new result (move_of_blocks owner to) }
{
    if !is_storable_owner(owner) || !is_storable_owner(to) {
        return Err(StoreFault::Store);
    }
    tx.run(
        "UPDATE blocks SET kind = ?3, owner = ?4 WHERE kind = ?1 AND owner = ?2",
        &move_params(owner, to),
    )
}

fn move_run_params(end: &BlockKey, to: BlockOwner) -> [ValueRef<'static>; 6]
    requires end { IsStorableKey end.now }
    requires to { IsStorableOwner to }
    ensures { bound result ≡ move_run_values end.now to }
{
    let [kind, number, part, place] = key_params(end);
    let [new_kind, new_number] = owner_params(to);
    [kind, number, part, place, new_kind, new_number]
}

/// Gives the blocks of a part that stand before a place to another owner. It is a fault of the store where
/// that has a block of the same part and place, and where a number is 2^63 or more.
pub fn move_run<T: Statements>(tx: &mut T, end: &BlockKey, to: BlockOwner) -> Result<(), StoreFault>
    ensures does { Writes T.lenders T.state tx.old tx.new result (move_of_run end.now to) }
{
    if !is_storable_key(end) || !is_storable_owner(to) {
        return Err(StoreFault::Store);
    }
    tx.run(
        "UPDATE blocks SET kind = ?5, owner = ?6 WHERE kind = ?1 AND owner = ?2 AND part = ?3 AND place < ?4",
        &move_run_params(end, to),
    )
}

impl FromRow for BlockPlace {
    ghost use Rattle.dep_tables.specs.Rows.{place_values, place_kinds};

    ghost width = { 2 };

    ghost values = { place_values };

    ghost columns = { place_kinds };

    ghost copies = { ⊥ };

    fn kinds() -> &'static [ColumnKind] {
        &[Number, Number]
    }

    fn from_row(row: &Row) -> Result<BlockPlace, AllocError> {
        Ok(BlockPlace {
            part: number_at(row, 0),
            place: number_at(row, 1),
        })
    }
}

impl FromRow for Vec<u8> {
    ghost use Rattle.dep_tables.specs.Rows.{bytes_kinds};
    ghost use Rattle.std.specs.Prelude.{⊤, ◌∷◌, []};
    ghost use Rattle.sqlite.specs.declared.types.Value.TheVariants.{Blob};

    ghost width = { 1 };

    ghost values = { λ bytes. Blob bytes.items ∷ [] };

    ghost columns = { bytes_kinds };

    ghost copies = { ⊤ };

    fn kinds() -> &'static [ColumnKind] {
        &[Bytes]
    }

    fn from_row(row: &Row) -> Result<Vec<u8>, AllocError> {
        copy_at(row, 0)
    }
}

/// Returns the bytes of the block of this key, if there is one. A number of 2^63 or more is a fault of the
/// store.
pub fn read_block<T: Statements>(tx: &mut T, key: &BlockKey) -> Result<Option<Vec<u8>>, StoreFault>
    ensures does { Queries T.lenders T.state tx.old tx.new result (query_of_block key.now) }
{
    if !is_storable_key(key) {
        return Err(StoreFault::Store);
    }
    ask_one(
        tx,
        "SELECT bytes FROM blocks WHERE kind = ?1 AND owner = ?2 AND part = ?3 AND place = ?4",
        &key_params(key),
    )
}

/// Returns the place of the first block of an owner, by part and place, if it has one. A number of 2^63 or
/// more is a fault of the store.
pub fn first_block<T: Statements>(
    tx: &mut T,
    owner: BlockOwner,
) -> Result<Option<BlockPlace>, StoreFault>
    ensures does { Queries T.lenders T.state tx.old tx.new result (query_of_first_block owner) }
{
    if !is_storable_owner(owner) {
        return Err(StoreFault::Store);
    }
    ask_one(
        tx,
        "SELECT part, place FROM blocks WHERE kind = ?1 AND owner = ?2 ORDER BY part, place LIMIT 1",
        &owner_params(owner),
    )
}

/// Returns the place of the last block of a part of an owner, if it has one. A number of 2^63 or more is a
/// fault of the store.
pub fn last_block<T: Statements>(
    tx: &mut T,
    owner: BlockOwner,
    part: u64,
) -> Result<Option<u64>, StoreFault>
    ensures does { Queries T.lenders T.state tx.old tx.new result (query_of_last_block owner part) }
{
    if !is_storable_part(owner, part) {
        return Err(StoreFault::Store);
    }
    ask_one(
        tx,
        "SELECT place FROM blocks WHERE kind = ?1 AND owner = ?2 AND part = ?3 ORDER BY place DESC LIMIT 1",
        &part_params(owner, part),
    )
}
