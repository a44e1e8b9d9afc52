//! The paths of a bag.
ghost use Rattle.std.specs.Prelude.{◌≡◌, ◌==◌, ◌++◌, IfOk, IfSome, OnOk, bytes_eq, map, position};
ghost use Rattle.std.specs.List.{before_first, list_any};
ghost use Rattle.std.specs.Option.{option_copied};
ghost use Rattle.dep_types.specs.BagPaths.{tag_paths};
ghost use Rattle.dep_types.specs.Limits.{IsStorable};
ghost use Rattle.dep_manifest.specs.Growing.{Grows};
ghost use Rattle.dep_bag.specs.Fronts.{IsBehind};
ghost use Rattle.dep_manifest.specs.Reported.{row_path};
ghost use Rattle.dep_bag.specs.Parts.{in_folder, reported_paths};
ghost use Rattle.dep_bag.specs.Numbered.{file_number, number_written};

use crate::part::{stored_file, tag_file};
use dep_manifest::{
    BAG_INFO, BAGIT, MANIFEST_SHA256, MANIFEST_SHA512, METADATA, TAG_MANIFEST_SHA256,
    TAG_MANIFEST_SHA512, payload_path,
};
use dep_octets::{Number, decimal};
use dep_types::{FileRow, List, ObjectView, Text};
use itoa::Buffer;
use std::alloc::{AllocError, Global};

/// Where the tag files stand, in the order of a bag's list.
const TAG_PATHS: [&str; 7] = [
    BAGIT,
    BAG_INFO,
    MANIFEST_SHA256,
    MANIFEST_SHA512,
    METADATA,
    TAG_MANIFEST_SHA256,
    TAG_MANIFEST_SHA512,
];

/// The greatest number that a table can hold.
const GREATEST_KEY: u64 = 9_223_372_036_854_775_807;

/// Returns the paths of an object's bag, in the order of its list: the tag files, then the payload by
/// ascending file number (RFC 8493, section 2).
pub fn bag_paths(alloc: Global, view: &ObjectView) -> Result<List<Text>, AllocError>
    ensures { IfOk result (λ paths. paths ≡ reported_paths view.now) }
{
    let mut paths = Vec::new(alloc);
    add_tag_paths(alloc, &mut paths)?;
    for row in view.files.as_slice() {
        paths.push(payload_path(alloc, row)?)?;
    }
    Ok(List::from_vec(paths))
}

fn add_tag_paths(alloc: Global, paths: &mut Vec<Text>) -> Result<(), AllocError>
    ensures { OnOk result (Grows paths.old paths.new tag_paths) }
{
    for path in &TAG_PATHS {
        paths.push(Text::copied(alloc, path)?)?;
    }
    Ok(())
}

/// Whether the file of this row stands at the path in its object's bag. Paths are compared byte by byte.
pub fn is_payload_path(path: &[u8], row: &FileRow) -> bool
    ensures { result ≡ bytes_eq path.now (row_path row.now) }
{
    let mut digits = Buffer::new();
    let number = digits.format(row.file).as_bytes();
    match stripped(path, number) {
        Some(name) => name == row.name.as_str().as_bytes(),
        None => false,
    }
}

/// Whether the bag of an object with these files has a path. Paths are compared byte by byte.
pub fn has_bag_path(files: &[FileRow], path: &[u8]) -> bool
    ensures { result ≡ list_any (bytes_eq path.now) (tag_paths ++ map row_path files.now) }
{
    tag_file(path).is_some() || stored_file(files, path).is_some()
}

/// Returns the number of the one file that can stand at this path of a bag, if one can: that of a path
/// `data/NUMBER/NAME`, where a table can hold it. It may begin with zeros, so whether the file stands there
/// is still to be asked.
pub fn file_number(path: &[u8]) -> Option<u64>
    ensures reported { result ≡ file_number path.now }
    ensures fits { IfSome result IsStorable }
{
    match after(path, b"data/") {
        Some(folder) => number_written(before_slash(folder)),
        None => None,
    }
}

fn number_written(digits: &[u8]) -> Option<u64>
    ensures reported { result ≡ number_written digits.now }
    ensures fits { IfSome result IsStorable }
{
    match decimal(digits, GREATEST_KEY) {
        Number::Value(number) => Some(number),
        Number::Above | Number::NotDigits => None,
    }
}

fn before_slash(text: &[u8]) -> &[u8]
    ensures { result.now ≡ before_first (λ b. b == 47) text.now }
{
    match first_slash(text) {
        Some(slash) => &text[..slash],
        None => text,
    }
}

fn first_slash(text: &[u8]) -> Option<usize>
    ensures { result ≡ position (λ b. b == 47) text.now }
{
    text.iter().position(|b| *b == b'/')
}

// What stands behind the folder of this number.
fn stripped<'a>(path: &'a [u8], number: &[u8]) -> Option<&'a [u8]>
    ensures { IsBehind (in_folder number.now) path.now (option_copied result) }
{
    let folder = after(path, b"data/")?;
    let behind = after(folder, number)?;
    after(behind, b"/")
}

// What stands behind a front.
fn after<'a>(text: &'a [u8], front: &[u8]) -> Option<&'a [u8]>
    ensures { IsBehind (λ rest. front.now ++ rest) text.now (option_copied result) }
{
    text.strip_prefix(front)
}
