//! The texts of `bagit.txt` and `bag-info.txt` (RFC 8493, sections 2.1.1 and 2.2.2).
ghost use Rattle.std.specs.Prelude.{◌≡◌, sum_by};
ghost use Rattle.dep_docs_out.specs.Made.{MakesItems};
ghost use Rattle.dep_manifest.specs.TagFiles.{bagit_text};
ghost use Rattle.dep_manifest.specs.Reported.{reported_info};

use dep_moment::Moment;
use dep_types::{FileRow, ObjectView};
use itoa::Buffer;
use std::alloc::{AllocError, Global};

const DECLARATION: &[u8] = b"BagIt-Version: 1.0\nTag-File-Character-Encoding: UTF-8\n";

/// Returns the text of `bagit.txt`: version 1.0 of BagIt, and UTF-8.
pub fn declaration(alloc: Global) -> Result<Vec<u8>, AllocError>
    ensures { MakesItems result bagit_text }
{
    DECLARATION.to_vec(alloc)
}

/// Returns the text of `bag-info.txt`: the day of the last change in UTC, and how many bytes and files the
/// payload has.
pub fn information(alloc: Global, view: &ObjectView) -> Result<Vec<u8>, AllocError>
    ensures { MakesItems result (reported_info view.now) }
{
    let rows = view.files.as_slice();
    let day = Moment::new(view.object.changed).civil_date();
    let mut octets = Buffer::new();
    let mut files = Buffer::new();
    let pieces: [&[u8]; 7] = [
        b"Bagging-Date: ",
        &day,
        b"\nPayload-Oxum: ",
        octets.format(octets_of(rows)).as_bytes(),
        b".",
        files.format(rows.len()).as_bytes(),
        b"\n",
    ];
    pieces.concat(alloc)
}

// How many bytes the files have. The sum is in 128 bits, so that no list of rows passes it.
fn octets_of(rows: &[FileRow]) -> u128
    ensures { result ≡ sum_by (λ row. row.size) rows.now }
{
    let mut octets = 0u128;
    for row in rows {
        octets += u128::from(row.size);
    }
    octets
}
