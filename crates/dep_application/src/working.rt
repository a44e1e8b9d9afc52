//! A database in a file, worked on.
ghost use Rattle.std.specs.Prelude.{◌≡◌, false};
ghost use Rattle.sqlite.specs.Held.{state};
ghost use Rattle.dep_application.specs.Working.{EndsWork, EndsWorkOnFile, outcome_unclosed};
ghost use Rattle.dep_application.specs.Working as working;

use dep_program::Outcome;
use sqlite::{Alter, Connection, File, FileStore};
use sqlite_disk::Disk;

/// What is done with a database, over whatever store of SQLite's.
pub trait DatabaseWork: Drop {
    /// What it makes of the database, and how it ends.
    ghost does: { Self → working.DatabaseWork };

    /// Does it, and hands the database back.
    fn work<S: Alter>(self, connection: Connection<S>) -> (Outcome, Connection<S>)
        requires settled { (state S.Store connection).in_transaction ≡ false }
        ensures does { does self S S.Store connection result.1 result.0 };
}

/// Opens the database in the file, which is made where it isn't there, and works on it. Then the log of the database is
/// copied into its file: where that fails, what was done is a fault of the store. Nothing is done, and nothing returned,
/// where the file can't be opened.
pub fn work_on_file<W: DatabaseWork>(rt: &HostRuntime, file: &str, work: W) -> Option<Outcome>
    ensures { EndsWorkOnFile ⟦<File as Disk>⟧ (W.does work) result }
{
    match Connection::open(rt, file) {
        Ok(connection) => Some(work_over(connection, work)),
        Err(_) => None,
    }
}

/// Works on the database of whatever files, and closes it.
// A call, at a store over files, of a function that is generic in the store is dear to prove: it stands here alone.
fn work_over<D: Disk + Drop, W: DatabaseWork>(
    connection: Connection<FileStore<D>>,
    work: W,
) -> Outcome
    requires settled { connection.in_transaction ≡ false }
    ensures { EndsWork D.Disk (W.does work) connection result }
{
    let (outcome, connection) = work.work(connection);
    match connection.close_files() {
        Ok(_) => outcome,
        Err((_, store)) => {
            drop(store.close());
            outcome_unclosed(outcome)
        }
    }
}

/// How it ended once the database is handed back, and couldn't be closed.
fn outcome_unclosed(outcome: Outcome) -> Outcome
    ensures { result ≡ outcome_unclosed outcome }
{
    match outcome {
        Outcome::Done => Outcome::StoreFault,
        _ => outcome,
    }
}
