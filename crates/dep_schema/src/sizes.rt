//! How many bytes a file has, asked outside a transaction.

ghost use Rattle.std.specs.Prelude.{◌≡◌, IfOk, IfErr, map};
ghost use Rattle.std.specs.Option.{option_to_list};
ghost use Rattle.dep_types.specs.declared.store_fault.StoreFault.TheVariants.{Store};
ghost use Rattle.dep_tables.specs.Rowids.{columns_from};
ghost use Rattle.dep_tables.specs.Tables.{IsOurs};
ghost use Rattle.dep_tables.specs.Clauses.{AtMostOne, IsFaultAt};
ghost use Rattle.dep_schema.specs.Clauses.{FindsOver};
ghost use Rattle.dep_schema.specs.Sizes.{IsSizeRow, IsSizeOf, size_values};
ghost use Rattle.dep_schema.specs.Causes.{FailsToFindSize};

use crate::asking::{ask, checked_number_at};
use dep_types::StoreFault;
use sqlite::{Alter, Connection, Row};

/// What has to be known of a file before its content is sent.
#[derive(Clone, Copy)]
pub(crate) struct FileSize {
    /// The number of the object that it belongs to.
    pub(crate) object: u64,
    /// How many bytes it has.
    pub(crate) size: u64,
}

fn size_in(row: &Row) -> Result<FileSize, StoreFault>
    ensures reported { IfOk result (λ found. size_values found ≡ columns_from 0 2 row.now) }
    ensures refused { IfErr result (λ fault. (¬ (IsSizeRow row.now)) × (fault ≡ Store)) }
{
    Ok(FileSize {
        object: checked_number_at(row, 0)?,
        size: checked_number_at(row, 1)?,
    })
}

fn only(rows: &[Row]) -> Result<Option<FileSize>, StoreFault>
    ensures reported { IfOk result
        (λ found. map size_values (option_to_list found) ≡ map (columns_from 0 2) rows.now) }
    ensures refused { IfErr result (IsFaultAt ⊥ (AtMostOne IsSizeRow) rows.now) }
{
    match rows {
        [] => Ok(None),
        [row] => Ok(Some(size_in(row)?)),
        _ => Err(StoreFault::Store),
    }
}

/// Returns the object and the size of the file of this number, if there is one. A number of 2^63 or more is a
/// fault of the store.
pub(crate) fn find_size<S: Alter>(
    connection: &mut Connection<S>,
    file: u64,
) -> Result<Option<FileSize>, StoreFault>
    ensures { FindsOver IsOurs S.Store connection.old connection.new result
        (λ t. IsSizeOf t file) (FailsToFindSize file) }
{
    let rows = ask(
        connection,
        "SELECT object, size FROM files WHERE file = ?1",
        file,
    )?;
    only(rows.as_slice())
}
