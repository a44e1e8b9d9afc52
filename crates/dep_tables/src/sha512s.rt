//! The SHA-512 values of the files, and those that uploads promised.

ghost use Rattle.std.specs.Prelude.{◌≡◌, ◌∷◌, []};
ghost use Rattle.sqlite.specs.declared.types.Value.TheVariants.{Blob};
ghost use Rattle.sqlite.specs.Values.{bound};
ghost use Rattle.dep_tables.specs.Rows.{IsStorableOwner, sha512_values};
ghost use Rattle.dep_tables.specs.Edits.{LacksSha512};
ghost use Rattle.dep_tables.specs.Clauses.{Shows, Writes, Queries};
ghost use Rattle.dep_tables.specs.Statements.{insertion_of_sha512, deletion_of_sha512, query_of_sha512};

use crate::calls::Statements;
use crate::columns::ColumnKind::{self, Sha512};
use crate::owner::{BlockOwner, is_storable_owner, owner_params};
use crate::reading::{FromRow, ask_one};
use crate::texts::digest_at;
use dep_types::StoreFault;
use sqlite::Row;
use sqlite::types::ValueRef;
use std::alloc::AllocError;

/// The SHA-512 of a file's content.
#[derive(Drop)]
pub struct FileSha512 {
    /// The number of the file.
    pub file: u64,
    /// Its SHA-512.
    pub value: [u8; 64],
}

fn sha512_params(owner: BlockOwner, value: &[u8; 64]) -> [ValueRef<'_>; 3]
    requires { IsStorableOwner owner }
    ensures { bound result ≡ sha512_values owner value.now }
{
    let [kind, number] = owner_params(owner);
    [kind, number, ValueRef::Blob(value)]
}

/// Adds the SHA-512 of a file's content, or the one that an upload promised. It is a fault of the store where
/// the owner has one, and where its number is 2^63 or more.
pub fn insert_sha512<T: Statements>(
    tx: &mut T,
    owner: BlockOwner,
    value: &[u8; 64],
) -> Result<(), StoreFault>
    ensures does { Writes T.lenders T.state tx.old tx.new result (insertion_of_sha512 owner value.now) }
    ensures free { Shows (T.state tx.old) (T.state tx.new) result (LacksSha512 owner) }
{
    if !is_storable_owner(owner) {
        return Err(StoreFault::Store);
    }
    tx.run(
        "INSERT INTO sha512s (kind, owner, value) VALUES (?1, ?2, ?3)",
        &sha512_params(owner, value),
    )
}

/// Deletes the SHA-512 of an owner, if it has one. A number of 2^63 or more is a fault of the store.
pub fn delete_sha512<T: Statements>(tx: &mut T, owner: BlockOwner) -> Result<(), StoreFault>
    ensures does { Writes T.lenders T.state tx.old tx.new result (deletion_of_sha512 owner) }
{
    if !is_storable_owner(owner) {
        return Err(StoreFault::Store);
    }
    tx.run(
        "DELETE FROM sha512s WHERE kind = ?1 AND owner = ?2",
        &owner_params(owner),
    )
}

impl FromRow for [u8; 64] {
    ghost use Rattle.dep_tables.specs.Rows.{sha512_kinds};
    ghost use Rattle.std.specs.Prelude.{◌∷◌, []};
    ghost use Rattle.sqlite.specs.declared.types.Value.TheVariants.{Blob};

    ghost width = { 1 };

    ghost values = { λ value. Blob value ∷ [] };

    ghost columns = { sha512_kinds };

    ghost copies = { ⊥ };

    fn kinds() -> &'static [ColumnKind] {
        &[Sha512]
    }

    fn from_row(row: &Row) -> Result<[u8; 64], AllocError> {
        Ok(digest_at(row, 0))
    }
}

/// Returns the SHA-512 of an owner, if it has one. It is a fault of the store where the value is not one of
/// 64 bytes, and for a number of 2^63 or more.
pub fn find_sha512<T: Statements>(
    tx: &mut T,
    owner: BlockOwner,
) -> Result<Option<[u8; 64]>, StoreFault>
    ensures does { Queries T.lenders T.state tx.old tx.new result (query_of_sha512 owner) }
{
    if !is_storable_owner(owner) {
        return Err(StoreFault::Store);
    }
    ask_one(
        tx,
        "SELECT value FROM sha512s WHERE kind = ?1 AND owner = ?2",
        &owner_params(owner),
    )
}
