//! The digests that the tables keep of files.

ghost use Rattle.std.specs.Prelude.{◌∷◌, [], map};
ghost use Rattle.sqlite.specs.Order.{column};
ghost use Rattle.dep_tables.specs.Tables.{IsOurs};
ghost use Rattle.dep_schema.specs.Clauses.{FindsOver};
ghost use Rattle.dep_schema.specs.Fixity.{IsKeptDigest, IsKeptSha512};
ghost use Rattle.dep_schema.specs.Causes.{FailsToFindSha512};

use dep_tables::{BlockOwner, fault_of, is_storable_owner, owner_params};
use dep_types::StoreFault;
use sqlite::types::ValueRef;
use sqlite::{Alter, Connection, Row};

/// The digest of N bytes in this column of a row, if it holds one.
pub(crate) fn digest_at<const N: usize>(row: &Row, at: usize) -> Option<[u8; N]>
    ensures { IsKeptDigest N (column row.now at ∷ []) result }
{
    match row.get_ref(at) {
        Ok(ValueRef::Blob(bytes)) => <[u8; N]>::try_from(bytes).ok(),
        _ => None,
    }
}

fn only(rows: &[Row]) -> Option<[u8; 64]>
    ensures { IsKeptDigest 64 (map (λ row. column row 0) rows.now) result }
{
    match rows {
        [row] => digest_at(row, 0),
        _ => None,
    }
}

/// The SHA-512 that the tables keep of an owner: none where they keep a value of another length. A number of 2^63 or
/// more is a fault of the store.
pub(crate) fn find_sha512<S: Alter>(
    connection: &mut Connection<S>,
    owner: BlockOwner,
) -> Result<Option<[u8; 64]>, StoreFault>
    ensures { FindsOver IsOurs S.Store connection.old connection.new result
        (λ t. IsKeptSha512 t owner) (FailsToFindSha512 owner) }
{
    if !is_storable_owner(owner) {
        return Err(StoreFault::Store);
    }
    let sql = "SELECT value FROM sha512s WHERE kind = ?1 AND owner = ?2";
    // With `map_err` no proof would know what a failure leaves of the connection.
    match connection.query_all(sql, &owner_params(owner)) {
        Ok(rows) => Ok(only(rows.as_slice())),
        Err(error) => Err(fault_of(error)),
    }
}
