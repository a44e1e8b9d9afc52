//! URLs of the server.
ghost use Rattle.std.specs.Prelude.{◌++◌, decimal, string_bytes};
ghost use Rattle.dep_docs_out.specs.Made.{MakesText};
ghost use Rattle.dep_docs_out.specs.Documents.{file_url, object_url, upload_url, url};

use dep_types::Config;
use itoa::Buffer;
use std::alloc::{AllocError, Global};

/// So many octets has the longest path behind the base: that of a file, where each number has 20 digits.
const LONGEST_PATH: usize = 56;

// Returns the text with another behind it.
fn joined(mut text: String, more: &str) -> Result<String, AllocError>
    ensures { MakesText result (string_bytes text ++ more.now) }
{
    text.push_str(more)?;
    Ok(text)
}

/// Returns the text with the digits of a number behind it.
pub(crate) fn numbered(text: String, number: u64) -> Result<String, AllocError>
    ensures { MakesText result (string_bytes text ++ decimal number) }
{
    let mut digits = Buffer::new();
    joined(text, digits.format(number))
}

/// Returns the URL with this path: the base with the path behind it. It has room for all that a path can go on with.
pub(crate) fn url(alloc: Global, config: &Config, path: &str) -> Result<String, AllocError>
    ensures { MakesText result (url config.now path.now) }
{
    let base = config.base.as_str();
    let text = String::with_capacity(alloc, base.len().saturating_add(LONGEST_PATH))?;
    joined(joined(text, base)?, path)
}

/// Returns the Object-URL of the object with this number.
pub fn object_url(alloc: Global, config: &Config, object: u64) -> Result<String, AllocError>
    ensures { MakesText result (object_url config.now object) }
{
    numbered(url(alloc, config, "/objects/")?, object)
}

/// The URL of a part of an object, by its path behind the Object-URL.
pub(crate) fn part_url(
    alloc: Global,
    config: &Config,
    object: u64,
    path: &str,
) -> Result<String, AllocError>
    ensures { MakesText result (object_url config.now object ++ path.now) }
{
    joined(object_url(alloc, config, object)?, path)
}

/// The File-URL of the file with this number.
pub(crate) fn file_url(
    alloc: Global,
    config: &Config,
    object: u64,
    file: u64,
) -> Result<String, AllocError>
    ensures { MakesText result (file_url config.now object file) }
{
    numbered(part_url(alloc, config, object, "/files/")?, file)
}

/// Returns the Temporary-URL of the upload with this number.
pub fn upload_url(alloc: Global, config: &Config, upload: u64) -> Result<String, AllocError>
    ensures { MakesText result (upload_url config.now upload) }
{
    numbered(url(alloc, config, "/staging/")?, upload)
}
