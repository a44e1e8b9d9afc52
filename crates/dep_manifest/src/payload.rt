//! The manifest of an object's files (RFC 8493, section 2.1.3).
ghost use Rattle.std.specs.Prelude.{OnOk, option_copied};
ghost use Rattle.dep_docs_out.specs.Made.{MakesItems};
ghost use Rattle.dep_manifest.specs.Growing.{Grows};
ghost use Rattle.dep_manifest.specs.Manifest.{line_of};
ghost use Rattle.dep_manifest.specs.Reported.{reported_manifest, row_line, row_path};

use crate::algorithm::Algorithm;
use crate::lines::add_line;
use crate::paths::payload_path;
use dep_fixity::{to_hex, to_hex512};
use dep_types::{FileRow, ObjectView};
use std::alloc::{AllocError, Global};

/// Returns the manifest of an object's files, in their order. Their digests are those that the view has: no
/// content is read.
pub fn payload_manifest(
    alloc: Global,
    view: &ObjectView,
    algorithm: Algorithm,
) -> Result<Vec<u8>, AllocError>
    ensures { MakesItems result (reported_manifest algorithm view.now) }
{
    let mut text = Vec::new(alloc);
    add_lines(alloc, &mut text, view, algorithm)?;
    Ok(text)
}

// Each file's SHA-512 stands at its place beside the rows.
fn add_lines(
    alloc: Global,
    text: &mut Vec<u8>,
    view: &ObjectView,
    algorithm: Algorithm,
) -> Result<(), AllocError>
    ensures { OnOk result (Grows text.old text.new (reported_manifest algorithm view.now)) }
{
    let rows = view.files.as_slice();
    let values = view.sha512s.as_slice();
    for index in 0..rows.len() {
        add_row(alloc, text, &rows[index], algorithm, values.get(index))?;
    }
    Ok(())
}

// Adds the line of a file, by SHA-512 where there is a value.
fn add_row(
    alloc: Global,
    text: &mut Vec<u8>,
    row: &FileRow,
    algorithm: Algorithm,
    value: Option<&[u8; 64]>,
) -> Result<(), AllocError>
    ensures { OnOk result (Grows text.old text.new
        (row_line algorithm row.now (option_copied value.entry))) }
{
    match algorithm {
        Algorithm::Sha256 => add_by_digits(alloc, text, row, &to_hex(&row.sha256)),
        Algorithm::Sha512 => match value {
            Some(value) => add_by_digits(alloc, text, row, &to_hex512(value)),
            None => Ok(()),
        },
    }
}

// Adds the line of a file, by the digits of its digest.
fn add_by_digits(
    alloc: Global,
    text: &mut Vec<u8>,
    row: &FileRow,
    digits: &[u8],
) -> Result<(), AllocError>
    ensures { OnOk result (Grows text.old text.new (line_of digits.now (row_path row.now))) }
{
    let path = payload_path(alloc, row)?;
    add_line(text, path.as_str(), digits)
}
