//! Where the files of a bag stand.
ghost use Rattle.std.specs.Prelude.{◌≡◌, IfOk};
ghost use Rattle.dep_manifest.specs.Reported.{row_path};

use dep_types::{FileRow, Text};
use itoa::Buffer;
use std::alloc::{AllocError, Global};

/// The declaration of the bag.
pub const BAGIT: &str = "bagit.txt";

/// What is said of the bag (RFC 8493, section 2.2.2).
pub const BAG_INFO: &str = "bag-info.txt";

/// The manifest of the payload by SHA-256.
pub const MANIFEST_SHA256: &str = "manifest-sha256.txt";

/// The manifest of the payload by SHA-512.
pub const MANIFEST_SHA512: &str = "manifest-sha512.txt";

/// The metadata of the object.
pub const METADATA: &str = "metadata/sword.json";

/// The manifest of the tag files by SHA-256.
pub const TAG_MANIFEST_SHA256: &str = "tagmanifest-sha256.txt";

/// The manifest of the tag files by SHA-512.
pub const TAG_MANIFEST_SHA512: &str = "tagmanifest-sha512.txt";

/// Returns the path of a payload file in its object's bag: `data/NUMBER/NAME`. An `Err` is lack of memory.
pub fn payload_path(alloc: Global, row: &FileRow) -> Result<Text, AllocError>
    ensures { IfOk result (λ path. path ≡ row_path row.now) }
{
    let mut digits = Buffer::new();
    let pieces = ["data/", digits.format(row.file), "/", row.name.as_str()];
    Ok(Text::new(pieces.concat(alloc)?))
}
