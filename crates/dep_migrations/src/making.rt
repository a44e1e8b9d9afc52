//! The tables of a new store, and their first rows, beside what is there.

ghost use Rattle.dep_tables.specs.Adding.{AddsAll};
ghost use Rattle.dep_tables.specs.Schema.{our_tables};
ghost use Rattle.dep_migrations.specs.Faults.{FailsToCreate, FailsToAddRows, FailsToMake};
ghost use Rattle.dep_migrations.specs.Running.{TurnsDatabase, WorksWithin};
ghost use Rattle.dep_migrations.specs.FirstTables.{GainsOurs};
ghost use Rattle.dep_migrations.specs.Making.{FillsOurs, MakesFirst, PutsFirstRows};

use crate::indexing::create_indexes;
use dep_tables::Statements;
use dep_types::StoreFault;

/// The text that makes the table which version 2 has beside those of version 1.
pub(crate) const SHA512S: &str =
    "CREATE TABLE sha512s (kind INTEGER NOT NULL, owner INTEGER NOT NULL, value BLOB NOT NULL, PRIMARY KEY (kind, owner)) STRICT";

/// The texts that make the tables, in the order of their trees.
const TABLES: [&str; 10] = [
    // The version of the tables.
    "CREATE TABLE format (id INTEGER PRIMARY KEY, version INTEGER NOT NULL) STRICT",
    // The clock and the counters.
    "CREATE TABLE state (id INTEGER PRIMARY KEY, clock INTEGER NOT NULL, next_object INTEGER NOT NULL, next_file INTEGER NOT NULL, next_upload INTEGER NOT NULL, next_change INTEGER NOT NULL) STRICT",
    // One row for each object.
    "CREATE TABLE objects (object INTEGER PRIMARY KEY, ingested INTEGER NOT NULL, object_tag INTEGER NOT NULL, metadata_tag INTEGER NOT NULL, files_tag INTEGER NOT NULL, changed INTEGER NOT NULL) STRICT",
    // One row for each text of an object's metadata.
    "CREATE TABLE metadata (object INTEGER NOT NULL, name TEXT NOT NULL, place INTEGER NOT NULL, value TEXT NOT NULL, PRIMARY KEY (object, name, place)) STRICT",
    // One row for each file.
    "CREATE TABLE files (file INTEGER PRIMARY KEY, object INTEGER NOT NULL, name TEXT NOT NULL, media TEXT NOT NULL, size INTEGER NOT NULL, tag INTEGER NOT NULL, deposited INTEGER NOT NULL, behalf TEXT, by_reference INTEGER NOT NULL, sha256 BLOB NOT NULL) STRICT",
    // One row for each staged upload.
    "CREATE TABLE uploads (upload INTEGER PRIMARY KEY, size INTEGER NOT NULL, count INTEGER NOT NULL, segment_size INTEGER NOT NULL, sha256 BLOB, last INTEGER NOT NULL) STRICT",
    // One row for each segment that was received.
    "CREATE TABLE segments (upload INTEGER NOT NULL, number INTEGER NOT NULL, size INTEGER NOT NULL, PRIMARY KEY (upload, number)) STRICT",
    // One row for each upload that timed out.
    "CREATE TABLE timed_out (upload INTEGER PRIMARY KEY) STRICT",
    // The bytes of contents, in blocks.
    "CREATE TABLE blocks (kind INTEGER NOT NULL, owner INTEGER NOT NULL, part INTEGER NOT NULL, place INTEGER NOT NULL, bytes BLOB NOT NULL, PRIMARY KEY (kind, owner, part, place)) STRICT",
    // The SHA-512 of each file, and those that uploads promised.
    SHA512S,
];

/// All tables, one after another.
fn create_tables<T: Statements>(tx: &mut T) -> Result<(), StoreFault>
    ensures adds { TurnsDatabase (T.state tx.old) (T.state tx.new) result (AddsAll our_tables) }
    ensures works { WorksWithin T.lenders T.state tx.old tx.new result
        (FailsToCreate T.state tx.old tx.new) }
{
    for text in &TABLES {
        tx.run(text, &[])?;
    }
    Ok(())
}

/// The rows of a new store.
fn add_rows<T: Statements>(tx: &mut T) -> Result<(), StoreFault>
    ensures beside { FillsOurs (T.state tx.old) (T.state tx.new) result PutsFirstRows }
    ensures works { WorksWithin T.lenders T.state tx.old tx.new result
        (FailsToAddRows T.state tx.old tx.new) }
{
    // Version 2.
    tx.run("INSERT INTO format (id, version) VALUES (1, 2)", &[])?;
    // The clock at 0, and each counter at 1.
    tx.run(
        "INSERT INTO state (id, clock, next_object, next_file, next_upload, next_change) VALUES (1, 0, 1, 1, 1, 1)",
        &[],
    )
}

/// The tables of a new store and their indexes, where their names are free.
pub fn make_tables<T: Statements>(tx: &mut T) -> Result<(), StoreFault>
    ensures ok { MakesFirst (T.state tx.old) (T.state tx.new) result }
    ensures gains { TurnsDatabase (T.state tx.old) (T.state tx.new) result GainsOurs }
    ensures works { WorksWithin T.lenders T.state tx.old tx.new result
        (FailsToMake T.state tx.old tx.new) }
{
    create_tables(tx)?;
    create_indexes(tx)?;
    add_rows(tx)
}
