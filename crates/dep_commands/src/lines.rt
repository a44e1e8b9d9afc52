//! The lines of an audit.
ghost use Rattle.std.specs.Prelude.{◌≡◌, ℕ, List, IfOk, flat_map, string_bytes};
ghost use Rattle.std.specs.Io.KnownBytes.{Appends};
ghost use Rattle.dep_tables.specs.Tables.{Tables};
ghost use Rattle.dep_schema.specs.Faults.{BlamesOutlet};
ghost use Rattle.dep_schema.specs.Fixity.{IsAudited};
ghost use Rattle.dep_commands.specs.Audits.{damaged_line, count_line, two_numbers};
ghost use Rattle.dep_commands.specs.Reporting.{ReportsAudit, WritesTo};
ghost use Rattle.dep_commands.specs.declared.audit_fault.AuditFault.TheVariants.{Writer};

use crate::audit_fault::AuditFault;
use crate::tally::Tally;
use dep_schema::Audit;
use dep_types::{Outlet, StoreFault};
use itoa::Buffer;
use std::alloc::Global;

/// A line of two numbers, each behind a text.
#[derive(Clone, Copy)]
struct NumbersLine<'a> {
    before: &'a str,
    first: u64,
    between: &'a str,
    second: u64,
}

/// Writes a line for each of the damaged files that the audit of an object found, and returns how many it checked.
pub(crate) fn write_audit<W: Outlet>(
    alloc: Global,
    object: u64,
    audit: Audit,
    out: &mut W,
) -> Result<Tally, AuditFault>
    ensures reports { (written : List ℕ) × Appends (W.taken out.old) (W.taken out.new) written
        × ((t : Tables) → IsAudited t object audit → ReportsAudit t object written result) }
    ensures blames { BlamesOutlet Writer (W.failures out.old) (W.failures out.new) result }
{
    write_damaged(alloc, object, audit.damaged.as_slice(), out)?;
    Ok(Tally {
        checked: audit.checked,
        damaged: audit.damaged.len() as u64,
    })
}

/// Writes a line for each of the damaged files of an object.
fn write_damaged<W: Outlet>(
    alloc: Global,
    object: u64,
    files: &[u64],
    out: &mut W,
) -> Result<(), AuditFault>
    ensures { WritesTo W.taken W.failures out.old out.new
        (flat_map (damaged_line object) files.now) result }
{
    'files: for file in files {
        let line = NumbersLine {
            before: "damaged ",
            first: object,
            between: " ",
            second: *file,
        };
        write_line(alloc, &line, out)?;
    }
    Ok(())
}

/// Writes the last line.
pub(crate) fn write_count<W: Outlet>(
    alloc: Global,
    tally: Tally,
    out: &mut W,
) -> Result<(), AuditFault>
    ensures { WritesTo W.taken W.failures out.old out.new
        (count_line tally.checked tally.damaged) result }
{
    let line = NumbersLine {
        before: "files ",
        first: tally.checked,
        between: " damaged ",
        second: tally.damaged,
    };
    write_line(alloc, &line, out)
}

fn write_line<W: Outlet>(
    alloc: Global,
    line: &NumbersLine<'_>,
    out: &mut W,
) -> Result<(), AuditFault>
    ensures { WritesTo W.taken W.failures out.old out.new
        (two_numbers line.now.before.now line.now.first line.now.between.now line.now.second) result }
{
    let text = spell(alloc, line)?;
    out.write(text.as_bytes())?;
    Ok(())
}

fn spell(alloc: Global, line: &NumbersLine<'_>) -> Result<String, StoreFault>
    ensures { IfOk result (λ text. string_bytes text
        ≡ two_numbers line.now.before.now line.now.first line.now.between.now line.now.second) }
{
    let mut first = Buffer::new();
    let mut second = Buffer::new();
    let text = [
        line.before,
        first.format(line.first),
        line.between,
        second.format(line.second),
        "\n",
    ]
    .concat(alloc)?;
    Ok(text)
}
