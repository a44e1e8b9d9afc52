//! How many bytes manifests have. Digests of one algorithm have as many digits, so what is digested isn't asked.
ghost use Rattle.std.specs.Prelude.{◌≡◌, map};
ghost use Rattle.dep_types.specs.declared.rows.ObjectView.{ObjectView as AView};
ghost use Rattle.dep_manifest.specs.Lengths.{OfLength, ReportsLength, fixed_length, in_64_bits, line_length};
ghost use Rattle.dep_manifest.specs.Manifest.{digest_by};
ghost use Rattle.dep_manifest.specs.Reported.{row_path, reported_listed};

use crate::algorithm::Algorithm;
use crate::lines::encoded_length;
use dep_types::FileRow;
use itoa::Buffer;

/// Returns how many bytes the manifest of these files has, whatever their contents are. It is `None` where that is
/// 2^64 - 1 or more, which no text has. No digest is read, and it takes no memory.
pub fn payload_manifest_length(rows: &[FileRow], algorithm: Algorithm) -> Option<u64>
    ensures { OfLength algorithm (map row_path rows.now) (λ length. ReportsLength length result) }
{
    let mut length = 0u64;
    for row in rows {
        length = length.saturating_add(line_length(row, algorithm));
    }
    if length < u64::MAX {
        Some(length)
    } else {
        None
    }
}

// How many bytes the line of a file has, as far as 64 bits hold it.
fn line_length(row: &FileRow, algorithm: Algorithm) -> u64
    ensures { result ≡ in_64_bits (line_length (digest_by algorithm) (row_path row.now)) }
{
    let mut digits = Buffer::new();
    let number = encoded_length(digits.format(row.file).as_bytes());
    let name = encoded_length(row.name.as_str().as_bytes());
    fixed_length(algorithm)
        .saturating_add(number)
        .saturating_add(name)
}

// How many bytes the line of a payload file has, but for its number and its name: a digest, two blanks, the folder
// `data`, a slash behind each folder, and a line feed.
fn fixed_length(algorithm: Algorithm) -> u64
    ensures { result ≡ fixed_length algorithm }
{
    match algorithm {
        Algorithm::Sha256 => 64 + 9,
        Algorithm::Sha512 => 128 + 9,
    }
}

/// Returns how many bytes the tag manifest of an algorithm has, which is the same in each bag: it has five lines, of a
/// digest, two blanks, a path and a line feed, and the paths have 78 bytes.
pub fn tag_manifest_length(algorithm: Algorithm) -> u64
    ensures { (view : AView) → OfLength algorithm (map (λ file. file.0) (reported_listed view))
        (λ length. result ≡ length) }
{
    match algorithm {
        Algorithm::Sha256 => 5 * (64 + 3) + 78,
        Algorithm::Sha512 => 5 * (128 + 3) + 78,
    }
}
