//! The audit of all files of a database.
ghost use Rattle.std.specs.Prelude.{◌≡◌};
ghost use Rattle.dep_commands.specs.Audits.{Audits};
ghost use Rattle.dep_store.specs.Staying.{KeepsTables};
ghost use Rattle.dep_commands.specs.Reporting.{ReportsObjects, WritesReport, WritesOf, BlamesTransfer, outcome_of_fault};

use crate::audit_fault::AuditFault;
use crate::lines::{write_audit, write_count};
use crate::tally::Tally;
use dep_program::Outcome;
use dep_schema::Watch;
use dep_store::AuditSource;
use dep_types::Outlet;
use std::alloc::Global;

/// Checks all files of all objects by both digests, in the order of the objects' numbers and then of the files'. It
/// writes a line for each damaged one, once its object was checked, and at last a line of how many were checked and
/// how many are damaged. The watch is told of each block that is read.
pub fn audit_all<S: AuditSource, W: Outlet, P: Watch>(
    alloc: Global,
    store: &mut S,
    out: &mut W,
    watch: &mut P,
) -> Outcome
    ensures writes { WritesOf (S.database store.old) (S.database store.new)
        (W.taken out.old) (W.taken out.new) (λ t written. Audits t written result) }
    ensures stays { KeepsTables (S.database store.old) (S.database store.new) }
    ensures blames { BlamesTransfer (W.failures out.old) (W.failures out.new) result }
{
    let tally = match report_objects(alloc, store, out, watch) {
        Ok(Some(tally)) => tally,
        Ok(None) => return Outcome::StoreFault,
        Err(fault) => return outcome_of(fault),
    };
    match write_count(alloc, tally, out) {
        Ok(()) if tally.damaged == 0 => Outcome::Done,
        Ok(()) => Outcome::Damaged,
        Err(fault) => outcome_of(fault),
    }
}

fn outcome_of(fault: AuditFault) -> Outcome
    ensures { result ≡ outcome_of_fault fault }
{
    match fault {
        AuditFault::Store => Outcome::StoreFault,
        AuditFault::Writer => Outcome::TransferFault,
    }
}

// Writes the lines of all objects. It gives up where more are checked than 64 bits count.
fn report_objects<S: AuditSource, W: Outlet, P: Watch>(
    alloc: Global,
    store: &mut S,
    out: &mut W,
    watch: &mut P,
) -> Result<Option<Tally>, AuditFault>
    ensures { WritesReport (S.database store.old) (S.database store.new)
        W.taken W.failures out.old out.new result ReportsObjects }
{
    let mut tally = Tally {
        checked: 0,
        damaged: 0,
    };
    let mut after = 0;
    'objects: for _ in 0..u64::MAX {
        let Some(object) = store.next_object(after)? else {
            return Ok(Some(tally));
        };
        let audit = store.audit(object, watch)?;
        let more = write_audit(alloc, object, audit, out)?;
        let Some(sum) = tally.plus(more) else {
            return Ok(None);
        };
        tally = sum;
        after = object;
    }
    Ok(None)
}
