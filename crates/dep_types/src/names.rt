//! Names of files and of metadata, and media types.
ghost use Rattle.std.specs.Prelude.{◌≡◌};
ghost use Rattle.std.specs.List.{list_all};
ghost use Rattle.std.specs.Str.{is_utf8};
ghost use Rattle.dep_types.specs.Names.{is_good_name, is_kept_name, is_media, is_media_byte, is_name_byte, is_short};

/// The one packaging that is taken (SWORD 3.0, packaging formats).
pub const BINARY_PACKAGING: &str = "http://purl.org/net/sword/3.0/package/Binary";

/// The one format of metadata that is taken (SWORD 3.0, metadata formats).
pub const METADATA_FORMAT: &str = "http://purl.org/net/sword/3.0/types/Metadata";

/// Whether a file may have this name: 1 to 255 bytes of UTF-8 without controls of ASCII, `/` and `\`, and
/// neither `.` nor `..`.
pub fn is_good_name(name: &[u8]) -> bool
    ensures { result ≡ is_good_name name.now }
{
    is_short(name)
        && is_utf8(name)
        && has_name_bytes_alone(name)
        && name != b".".as_slice()
        && name != b"..".as_slice()
}

/// Whether a text may stand as a media type: 1 to 255 bytes of 0x20 to 0x7E.
pub fn is_media(text: &[u8]) -> bool
    ensures { result ≡ is_media text.now }
{
    is_short(text) && has_media_bytes_alone(text)
}

/// Whether metadata of this name is kept: it begins with `dc:` or `dcterms:`.
pub fn is_kept_name(name: &[u8]) -> bool
    ensures { result ≡ is_kept_name name.now }
{
    name.starts_with(b"dc:") || name.starts_with(b"dcterms:")
}

fn is_short(text: &[u8]) -> bool
    ensures { result ≡ is_short text.now }
{
    !text.is_empty() && text.len() <= 255
}

fn is_utf8(text: &[u8]) -> bool
    ensures { result ≡ is_utf8 text.now }
{
    match str::from_utf8(text) {
        Ok(_) => true,
        Err(_) => false,
    }
}

fn has_name_bytes_alone(name: &[u8]) -> bool
    ensures { result ≡ list_all is_name_byte name.now }
{
    name.iter().all(is_name_byte)
}

fn is_name_byte(byte: &u8) -> bool
    ensures { result ≡ is_name_byte byte.now }
{
    b' ' <= *byte && *byte != 0x7f && *byte != b'/' && *byte != b'\\'
}

fn has_media_bytes_alone(text: &[u8]) -> bool
    ensures { result ≡ list_all is_media_byte text.now }
{
    text.iter().all(is_media_byte)
}

fn is_media_byte(byte: &u8) -> bool
    ensures { result ≡ is_media_byte byte.now }
{
    b' ' <= *byte && *byte <= b'~'
}
