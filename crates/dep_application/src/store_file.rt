//! What is done with the store in a file.

use crate::examination::{audit_database, export_database};
use crate::progress::Reported;
use crate::service::serve_database;
use crate::working::{DatabaseWork, work_on_file};
use dep_program::{Job, Outcome, ProgressLine};
use dep_types::Through;
use sqlite::{Alter, Connection};
use std::fs;

/// A job that is done here.
#[derive(Drop)]
struct JobHere<'a> {
    rt: &'a HostRuntime,
    job: Job<'a>,
}

impl DatabaseWork for JobHere<'_> {
    ghost use Rattle.dep_application.specs.Jobs.{WorksOn};

    ghost does = { λ it S g given back. WorksOn g it.job given back };

    // Does the job, and hands the database back. The lines of an audit go to standard output, and how far it came to
    // standard error.
    fn work<S: Alter>(self, connection: Connection<S>) -> (Outcome, Connection<S>) {
        let JobHere { rt, job } = self;
        let mut watch = Reported(ProgressLine::new(rt));
        match job {
            Job::Serve(options) => serve_database(rt, options, connection, &mut watch),
            Job::Export { object, folder } => {
                export_database(rt, connection, object, folder, &mut watch)
            }
            Job::Audit => {
                let mut lines = Through::new(rt.stdout());
                audit_database(rt.alloc(), connection, &mut lines, &mut watch)
            }
        }
    }
}

/// Opens the store in the file, and does the job. Then the log of the store is copied into its file. A service makes the
/// file where it isn't there; for an export or an audit that is a fault of the store.
pub fn work_on(rt: &HostRuntime, file: &str, job: Job<'_>) -> Outcome {
    if !matches!(job, Job::Serve(_)) && fs::metadata(rt, file).is_err() {
        return Outcome::StoreFault;
    }
    match work_on_file(rt, file, JobHere { rt, job }) {
        Some(outcome) => outcome,
        None => Outcome::StoreFault,
    }
}
