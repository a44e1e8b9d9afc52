//! The numbers of the files, one after another, over the tables of any version.

ghost use Rattle.std.specs.Prelude.{◌≡◌, ◌∷◌, [], pos, IfOk, IfErr, map};
ghost use Rattle.std.specs.Option.{option_to_list};
ghost use Rattle.sqlite.specs.declared.types.Value.TheVariants.{Int};
ghost use Rattle.dep_tables.specs.Rowids.{columns_from};
ghost use Rattle.dep_tables.specs.Clauses.{AtMostOne, IsFaultAt};
ghost use Rattle.dep_tables.specs.Rows.{IsNumberRow};
ghost use Rattle.dep_tables.specs.Tables.{IsKnown};
ghost use Rattle.dep_schema.specs.Clauses.{FindsOver};
ghost use Rattle.dep_schema.specs.Sha512s.{IsFileAfter};
ghost use Rattle.dep_schema.specs.Causes.{FailsToFindFile};

use crate::asking::{ask, checked_number_at};
use dep_types::StoreFault;
use sqlite::{Alter, Connection, Row};

fn only(rows: &[Row]) -> Result<Option<u64>, StoreFault>
    ensures reported { IfOk result (λ found. map (λ n. Int (pos n) ∷ []) (option_to_list found)
        ≡ map (columns_from 0 1) rows.now) }
    ensures refused { IfErr result (IsFaultAt ⊥ (AtMostOne IsNumberRow) rows.now) }
{
    match rows {
        [] => Ok(None),
        [row] => Ok(Some(checked_number_at(row, 0)?)),
        _ => Err(StoreFault::Store),
    }
}

/// The least number of a file above this one, if there is one. A number of 2^63 or more is a fault of the store.
pub(crate) fn next_file<S: Alter>(
    connection: &mut Connection<S>,
    after: u64,
) -> Result<Option<u64>, StoreFault>
    ensures { FindsOver IsKnown S.Store connection.old connection.new result
        (λ t. IsFileAfter t after) (FailsToFindFile after) }
{
    let rows = ask(
        connection,
        "SELECT file FROM files WHERE file > ?1 ORDER BY file LIMIT 1",
        after,
    )?;
    only(rows.as_slice())
}
