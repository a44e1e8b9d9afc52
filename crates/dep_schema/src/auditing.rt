//! Files whose bytes are not those that were deposited.

ghost use Rattle.std.specs.Prelude.{◌≢◌, [], OnOk, OnErr};
ghost use Rattle.sqlite.specs.Held.{state};
ghost use Rattle.dep_manifest.specs.Growing.{Grows};
ghost use Rattle.dep_tables.specs.Tables.{IsOurs};
ghost use Rattle.dep_schema.specs.Clauses.{FailsOver, FindsOver, ReadsOverTables, ReportsOver};
ghost use Rattle.dep_schema.specs.Fixity.{IsAudited, KeepsDamaged, number_if_damaged};
ghost use Rattle.dep_schema.specs.Causes.{FailsToCheck, FailsToAudit};

use crate::asking::{ask, checked_number_at};
use crate::hashing::hash_blocks;
use crate::kept::{digest_at, find_sha512};
use crate::watch::Watch;
use dep_fixity::Digests;
use dep_manifest::{KeptDigests, note_damaged};
use dep_tables::BlockOwner;
use dep_types::StoreFault;
use sqlite::{Alter, Connection, Row};
use std::alloc::{AllocError, Global};

/// What an audit of files found.
#[derive(Drop)]
pub struct Audit {
    /// How many files were checked.
    pub checked: u64,
    /// The numbers of those whose bytes have another SHA-256 than their row keeps, or another SHA-512 than the tables
    /// keep of them, and of those of which either isn't kept, or isn't one: in the order of the rows.
    pub damaged: Vec<u64>,
}

/// What is known of a file that was checked.
#[derive(Clone, Copy)]
struct FileFixity {
    /// Its number.
    file: u64,
    /// The SHA-256 that its row keeps, if that is one.
    sha256: Option<[u8; 32]>,
    /// The SHA-512 that the tables keep of it, if they keep one.
    sha512: Option<[u8; 64]>,
    /// The digests of its bytes.
    digests: Digests,
}

// Notes the number of the file where its bytes have other digests than those that are kept, or where one of these isn't.
fn note(damaged: &mut Vec<u64>, found: &FileFixity) -> Result<(), AllocError>
    ensures ok { OnOk result (Grows damaged.old damaged.new (number_if_damaged found.now)) }
    ensures cause { OnErr result (number_if_damaged found.now ≢ []) }
{
    let Some(sha256) = found.sha256 else {
        damaged.push(found.file)?;
        return Ok(());
    };
    let kept = KeptDigests {
        sha256,
        sha512: found.sha512,
    };
    note_damaged(damaged, found.file, &kept, &found.digests)
}

// Checks the file of a row of the list, and notes its number where it is damaged.
fn keep_damaged<S: Alter, W: Watch>(
    connection: &mut Connection<S>,
    damaged: &mut Vec<u64>,
    row: &Row,
    watch: &mut W,
) -> Result<(), StoreFault>
    ensures { FindsOver IsOurs S.Store connection.old connection.new result
        (λ t _. KeepsDamaged t row.now damaged.old.items damaged.new.items)
        (FailsToCheck row.now) }
{
    let file = checked_number_at(row, 0)?;
    let sha512 = find_sha512(connection, BlockOwner::File(file))?;
    let digests = hash_blocks(connection, BlockOwner::File(file), watch)?;
    let found = FileFixity {
        file,
        sha256: digest_at(row, 1),
        sha512,
        digests,
    };
    note(damaged, &found)?;
    Ok(())
}

/// Checks the files whose rows name an object by the SHA-256 and the SHA-512 of the bytes that stand in the tables: those
/// of all blocks that name the file, by part and place, whatever they are. The SHA-256 is compared with the row's, and
/// the SHA-512 with the one that the table of them keeps: a file of which either isn't kept, or isn't one, is damaged.
/// Each block is read once, for both digests, and one is held at a time; its length is passed to `watch`. A number of
/// 2^63 or more is a fault of the store, and so is a block that has no bytes.
pub fn audit_files<S: Alter, W: Watch>(
    connection: &mut Connection<S>,
    alloc: Global,
    object: u64,
    watch: &mut W,
) -> Result<Audit, StoreFault>
    ensures audits { ReportsOver IsOurs S.Store connection.old connection.new result
        (λ t. IsAudited t object) }
    ensures cause { FailsOver IsOurs S.Store connection.old connection.new result
        (FailsToAudit (state S.Store) object) }
    ensures reads { ReadsOverTables S.Store connection.old connection.new result }
{
    let rows = ask(
        connection,
        "SELECT file, sha256 FROM files WHERE object = ?1 ORDER BY file",
        object,
    )?;
    let mut damaged = Vec::new(alloc);
    'files: for row in rows.as_slice() {
        keep_damaged(connection, &mut damaged, row, watch)?;
    }
    Ok(Audit {
        checked: rows.len() as u64,
        damaged,
    })
}
