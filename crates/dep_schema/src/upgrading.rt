//! The SHA-512 of each file, of its bytes as they stand in the tables of any version.

ghost use Rattle.sqlite.specs.Held.{state};
ghost use Rattle.dep_tables.specs.Tables.{IsKnown};
ghost use Rattle.dep_schema.specs.Clauses.{FailsOver, FindsOver, ReadsOverTables, ReportsOver};
ghost use Rattle.dep_schema.specs.Sha512s.{IsValueAfter, AreValuesOf};
ghost use Rattle.dep_schema.specs.Causes.{FailsToHashNext, FailsToHashFiles};

use crate::hashing::hash_blocks;
use crate::numbers::next_file;
use crate::watch::Watch;
use dep_tables::{BlockOwner, FileSha512};
use dep_types::StoreFault;
use sqlite::{Alter, Connection};
use std::alloc::Global;

// The next file behind this number, if there is one, with the SHA-512 of its blocks.
fn next_value<S: Alter, W: Watch>(
    connection: &mut Connection<S>,
    after: u64,
    watch: &mut W,
) -> Result<Option<FileSha512>, StoreFault>
    ensures { FindsOver IsKnown S.Store connection.old connection.new result
        (λ t. IsValueAfter t after) (FailsToHashNext after) }
{
    let Some(file) = next_file(connection, after)? else {
        return Ok(None);
    };
    let digests = hash_blocks(connection, BlockOwner::File(file), watch)?;
    let value = digests.sha512;
    Ok(Some(FileSha512 { file, value }))
}

/// Returns the SHA-512 of each file whose number is above 0, by ascending number: of the bytes of all blocks
/// that name the file, by part and place, as they stand. The tables may be of any version. Each block is read
/// once, and one is held at a time, beside the values; its length is passed to `watch`. A block that has no
/// bytes is a fault of the store.
pub fn hash_files<S: Alter, W: Watch>(
    connection: &mut Connection<S>,
    alloc: Global,
    watch: &mut W,
) -> Result<Vec<FileSha512>, StoreFault>
    ensures hashes { ReportsOver IsKnown S.Store connection.old connection.new result
        (λ t values. AreValuesOf t values.items) }
    ensures cause { FailsOver IsKnown S.Store connection.old connection.new result
        (FailsToHashFiles (state S.Store)) }
    ensures reads { ReadsOverTables S.Store connection.old connection.new result }
{
    let mut values = Vec::new(alloc);
    let mut last = 0;
    'files: for _ in 0..u64::MAX {
        let Some(value) = next_value(connection, last, watch)? else {
            return Ok(values);
        };
        last = value.file;
        values.push(value)?;
    }
    Err(StoreFault::Store)
}
