//! Opening a database of the store.

ghost use Rattle.std.specs.Prelude.{◌≡◌, false, ◌↔◌, Some, None, IsTrue, IfSome, IfOk, IfErr, OnOk, OnErr, MatchResult, Err};
ghost use Rattle.sqlite.specs.declared.types.Value.TheVariants.{Int};
ghost use Rattle.sqlite.specs.Order.{column};
ghost use Rattle.sqlite.specs.State.{HasCleanDisk, IsUnchanged, Survives};
ghost use Rattle.sqlite.specs.Held.{state};
ghost use Rattle.dep_tables.specs.Tables.{IsKnown};
ghost use Rattle.dep_tables.specs.Versions.{our_version, older_version, IsKnownVersion};
ghost use Rattle.dep_transactions.specs.OpenTables.{IsBack, StaysOn};
ghost use Rattle.dep_schema.specs.Openable.{IsOpenable, CommitsBySchema, SeesTheSame};
ghost use Rattle.dep_migrations.specs.Beside.{LacksFormat, AreFree};
ghost use Rattle.dep_schema.specs.Making.{FindsNone, FindsKnown, FindsShown, AreMade, FindsOrMakes};
ghost use Rattle.dep_schema.specs.Opening.{IsPrepared, RepresentsFresh, RepresentsFound, RepresentsAdded, WasOpen, SurvivesOpen, OpensBy, RefusesBy};
ghost use Rattle.dep_schema.specs.OpenFaults.{open_fault_number, version_reported_by, AreVersion, FindsVersion, ShowsOrMakes, FailsToOpen, RefusesKnown};
ghost use Rattle.dep_transactions.specs.OpenTables.{begun};

use dep_migrations::make_tables;
use dep_tables::fault_of;
use dep_transactions::{Lent, commit};
use dep_types::StoreFault;
use sqlite::types::ValueRef;
use sqlite::{Alter, Connection, Error, Row, Transaction};
use sqlite_resolve::CompileError;
use std::fmt;

/// Why a database was not opened.
#[derive(Clone, Copy, Debug)]
pub enum OpenFault {
    /// The table `format` is there, and does not have the one row of a known version.
    UnknownVersion,
    /// The database failed, or a name of the tables is taken.
    Store,
    /// Memory was refused.
    Memory,
}

impl From<StoreFault> for OpenFault {
    ghost use Rattle.std.specs.Prelude.{◌≡◌};
    ghost use Rattle.dep_schema.specs.OpenFaults.{open_fault_for};

    ghost from_gives = { λ fault made. made ≡ open_fault_for fault };

    fn from(fault: StoreFault) -> OpenFault {
        match fault {
            StoreFault::Store => OpenFault::Store,
            StoreFault::Memory => OpenFault::Memory,
        }
    }
}

impl OpenFault {
    /// The number of the fault: 1, 2 or 3.
    pub fn number(self) -> u8
        ensures { result ≡ open_fault_number self }
    {
        match self {
            OpenFault::UnknownVersion => 1,
            OpenFault::Store => 2,
            OpenFault::Memory => 3,
        }
    }
}

impl fmt::Display for OpenFault {
    fn fmt<W: fmt::Write>(&self, f: &mut fmt::Formatter<W>) -> fmt::Result {
        f.write_str(match self {
            OpenFault::UnknownVersion => "the version of the tables is not known",
            OpenFault::Store => "the store failed",
            OpenFault::Memory => "out of memory",
        })
    }
}

impl std::error::Error for OpenFault {}

/// A connection over the tables of the store.
#[derive(Drop)]
pub struct Schema<S: Alter> {
    /// The connection to the database, which has the tables of one of our versions.
    pub connection: Connection<S>,
    found: u64,
}

impl<S: Alter> Schema<S> {
    /// The version that was found: 1 or 2, and 2 where the tables were made.
    pub fn version(&self) -> u64
        ensures { result ≡ self.now.found }
    {
        self.found
    }
}

/// Whether this column of the row is this number.
fn has_number(row: &Row, at: usize, number: i64) -> bool
    ensures { IsTrue result ↔ column row.now at ≡ Int number }
{
    match row.get_ref(at) {
        Ok(ValueRef::Int(found)) => found == number,
        _ => false,
    }
}

/// Whether it is the one row of id 1 and this version.
fn are_known(rows: &[Row], version: i64) -> bool
    ensures { IsTrue result ↔ AreVersion version rows.now }
{
    match rows {
        [row] => has_number(row, 0, 1) && has_number(row, 1, version),
        _ => false,
    }
}

/// What an error of the query for the version means: that no table `format` is there, or a fault.
fn reported_by(error: Error) -> Result<Option<u64>, OpenFault>
    ensures { result ≡ version_reported_by error }
{
    match error {
        Error::SqlInputError(CompileError::NoSuchTable) => Ok(None),
        Error::SqlInputError(_) => Err(OpenFault::UnknownVersion),
        other => Err(OpenFault::from(fault_of(other))),
    }
}

/// The version that these rows of the table `format` have. It has to be 1 or 2.
fn version_of(rows: &[Row]) -> Result<Option<u64>, OpenFault>
    ensures { FindsVersion rows.now result }
{
    if are_known(rows, 2) {
        Ok(Some(2))
    } else if are_known(rows, 1) {
        Ok(Some(1))
    } else {
        Err(OpenFault::UnknownVersion)
    }
}

/// Returns the version in the table `format`, if there is that table. It has to be 1 or 2.
fn find_format<S: Alter>(tx: &mut Transaction<'_, S>) -> Result<Option<u64>, OpenFault>
    ensures ours { FindsKnown (state S.Store tx.old.conn.now) (state S.Store tx.new.conn.now)
        result }
    ensures known { IfOk result (λ found. IfSome found IsKnownVersion) }
    ensures lacking { FindsNone (state S.Store tx.old.conn.now) (state S.Store tx.new.conn.now)
        result }
    // Whatever tables there are, it only reads.
    ensures same { HasCleanDisk (state S.Store tx.new.conn.now)
        → OnOk result (IsUnchanged (state S.Store tx.old.conn.now) (state S.Store tx.new.conn.now)) }
    ensures reported { FindsShown (state S.Store tx.old.conn.now) (state S.Store tx.new.conn.now)
        result }
    ensures stays { StaysOn S.Store tx.old.conn tx.new.conn result }
{
    match tx.query_all("SELECT id, version FROM format", &[]) {
        Ok(rows) => version_of(rows.as_slice()),
        Err(error) => reported_by(error),
    }
}

/// Makes the tables where there are none. It returns the version.
fn find_or_make<S: Alter>(tx: &mut Transaction<'_, S>) -> Result<u64, OpenFault>
    ensures makes { IfOk result
        (AreMade (state S.Store tx.old.conn.now) (state S.Store tx.new.conn.now)) }
    ensures version { HasCleanDisk (state S.Store tx.new.conn.now)
        → result ≡ Err OpenFault.UnknownVersion
        → IsOpenable (state S.Store tx.old.conn.now) → ⊥ }
    ensures reported { FindsOrMakes S.Store tx.old.conn.now tx.new.conn.now result }
    ensures known { IfOk result IsKnownVersion }
    ensures stays { StaysOn S.Store tx.old.conn tx.new.conn result }
{
    if let Some(version) = find_format(tx)? {
        return Ok(version);
    }
    make_tables(&mut Lent { tx })?;
    Ok(2)
}

fn prepare<S: Alter>(connection: &mut Connection<S>) -> Result<u64, OpenFault>
    requires settled { (state S.Store connection.old).in_transaction ≡ false }
    ensures opens { HasCleanDisk (state S.Store connection.new)
        → IfOk result (IsPrepared (state S.Store connection.old) (state S.Store connection.new)) }
    ensures known { IfOk result IsKnownVersion }
    ensures version { HasCleanDisk (state S.Store connection.new)
        → result ≡ Err OpenFault.UnknownVersion → IsOpenable (state S.Store connection.old) → ⊥ }
    ensures reported { HasCleanDisk (state S.Store connection.new)
        → MatchResult result (ShowsOrMakes S.Store (begun connection.old))
        (FailsToOpen S.Store connection.old connection.new) }
    ensures ours { HasCleanDisk (state S.Store connection.new)
        → IsKnown (state S.Store connection.old)
        → IfErr result
        (RefusesKnown (state S.Store connection.old) (state S.Store connection.new)) }
    ensures left { HasCleanDisk (state S.Store connection.new)
        → IsTrue (state S.Store connection.new).is_open
        → OnErr result (IsBack (state S.Store connection.old) (state S.Store connection.new)) }
    ensures refused { IsTrue (state S.Store connection.new).is_open
        → OnErr result (IsTrue (state S.Store connection.old).is_open) }
    ensures mode { (state S.Store connection.new).in_transaction ≡ false }
    ensures crash { Survives (state S.Store connection.old) (state S.Store connection.new)
        (CommitsBySchema (state S.Store connection.old)) }
{
    let mut tx = connection.transaction();
    let version = find_or_make(&mut tx)?;
    commit(tx)?;
    Ok(version)
}

/// Makes the tables where there is none, in one transaction, and takes a database that has those of version 2 or 1.
/// A database without a table `format` is taken as empty; where another of the names is taken there, that is a fault of the store.
/// After a fault the connection is handed back, and while its store is open it has what it had.
// Where this is inlined, LLVM takes seconds for the large values that meet.
#[inline(never)]
pub fn open<S: Alter>(
    mut connection: Connection<S>,
) -> Result<Schema<S>, (OpenFault, Connection<S>)>
    requires settled { (state S.Store connection).in_transaction ≡ false }
    ensures fresh { IfOk result
        (λ schema. RepresentsFresh S.Store connection schema.connection schema.found) }
    ensures found { IfOk result
        (λ schema. RepresentsFound S.Store connection schema.connection schema.found) }
    // A database without a table `format`, such as an empty one, has version 2 then.
    ensures made { IfOk result (λ schema. HasCleanDisk (state S.Store schema.connection)
        → LacksFormat (state S.Store connection).now.schema → schema.found ≡ our_version) }
    // One of version 1 is left as it is, whatever tables it has.
    ensures still { IfOk result (λ schema. HasCleanDisk (state S.Store schema.connection)
        → schema.found ≡ older_version
        → SeesTheSame (state S.Store connection) (state S.Store schema.connection)) }
    ensures known { IfOk result (λ schema. IsKnownVersion schema.found) }
    ensures free { IfOk result (λ schema. HasCleanDisk (state S.Store schema.connection)
        → LacksFormat (state S.Store connection).now.schema
        → AreFree (state S.Store connection).now.schema) }
    ensures beside { IfOk result (λ schema. RepresentsAdded S.Store connection schema.connection) }
    ensures version { IfErr result (λ e. HasCleanDisk (state S.Store e.1)
        → e.0 ≡ OpenFault.UnknownVersion → IsOpenable (state S.Store connection) → ⊥) }
    // A fault has a cause, and an Ok has one: a database is opened only by a version that is known or for want of `format`.
    ensures reported { MatchResult result
        (λ schema. OpensBy S.Store connection schema.connection schema.found)
        (λ e. RefusesBy S.Store connection e.1 e.0) }
    // The tables of one of our versions with none that is known are refused by that fault, unless SQLite gave out.
    ensures ours { IfErr result (λ e. HasCleanDisk (state S.Store e.1)
        → IsKnown (state S.Store connection)
        → RefusesKnown (state S.Store connection) (state S.Store e.1) e.0) }
    ensures left { IfErr result (λ e. HasCleanDisk (state S.Store e.1)
        → IsTrue (state S.Store e.1).is_open → IsBack (state S.Store connection) (state S.Store e.1)) }
    // No open opens a store that was shut.
    ensures opened { MatchResult result (λ schema. WasOpen S.Store connection schema.connection)
        (λ e. WasOpen S.Store connection e.1) }
    ensures mode { MatchResult result
        (λ schema. (state S.Store schema.connection).in_transaction ≡ false)
        (λ e. (state S.Store e.1).in_transaction ≡ false) }
    ensures crash { MatchResult result (λ schema. SurvivesOpen S.Store connection schema.connection)
        (λ e. SurvivesOpen S.Store connection e.1) }
{
    let _schema = connection.schema();
    match prepare(&mut connection) {
        Ok(found) => Ok(Schema { connection, found }),
        Err(fault) => Err((fault, connection)),
    }
}
