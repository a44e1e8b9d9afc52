//! Texts and digests as SQL keeps them.

ghost use Rattle.std.specs.Prelude.{◌≡◌, IfOk};
ghost use Rattle.sqlite.specs.declared.types.Value.TheVariants.{Text as TextValue, Blob};
ghost use Rattle.sqlite.specs.Order.{column};
ghost use Rattle.sqlite.specs.Values.{or_null};
ghost use Rattle.sqlite_value.specs.Value.{owned};
ghost use Rattle.dep_tables.specs.Rows.{HasAt, IsTextValue, IsDigestValue, IsNullOr};

use dep_types::Text;
use sqlite::types::{FromSql, ValueRef};
use sqlite::{Error, ErrorCode, Row};
use std::alloc::AllocError;

/// The text as SQL keeps it.
pub(crate) fn text_value(text: &Text) -> ValueRef<'_>
    ensures { owned result ≡ TextValue text.now }
{
    ValueRef::Text(text.as_str().as_bytes())
}

/// A copy of the value in this column of a row. An `Err` is lack of memory.
pub(crate) fn copy_at<T: FromSql>(row: &Row, at: usize) -> Result<T, AllocError>
    requires { HasAt T.is_readable row.now at }
    ensures { IfOk result (λ read. T.reads_as (column row.now at) read) }
{
    match row.get(at) {
        Ok(read) => Ok(read),
        Err(Error::SqliteFailure(ErrorCode::OutOfMemory)) => Err(AllocError),
        Err(_) => unreachable!(),
    }
}

/// A text that `text_value` wrote.
pub(crate) fn text_at(row: &Row, at: usize) -> Result<Text, AllocError>
    requires { HasAt IsTextValue row.now at }
    ensures { IfOk result (λ read. column row.now at ≡ TextValue read) }
{
    Ok(Text::new(copy_at(row, at)?))
}

/// A text as SQL keeps it, or NULL.
pub(crate) fn text_or_null(text: &Option<Text>) -> ValueRef<'_>
    ensures { owned result ≡ or_null TextValue text.now }
{
    match text {
        Some(text) => text_value(text),
        None => ValueRef::Null,
    }
}

/// A text that `text_or_null` wrote.
pub(crate) fn text_or_null_at(row: &Row, at: usize) -> Result<Option<Text>, AllocError>
    requires { HasAt (IsNullOr IsTextValue) row.now at }
    ensures { IfOk result (λ read. column row.now at ≡ or_null TextValue read) }
{
    let text: Option<String> = copy_at(row, at)?;
    match text {
        Some(text) => Ok(Some(Text::new(text))),
        None => Ok(None),
    }
}

/// A digest as SQL keeps it, or NULL.
pub(crate) fn digest_or_null(digest: &Option<[u8; 32]>) -> ValueRef<'_>
    ensures { owned result ≡ or_null Blob digest.now }
{
    match digest {
        Some(digest) => ValueRef::Blob(digest),
        None => ValueRef::Null,
    }
}

/// The digest of N bytes in this column of a row.
pub(crate) fn digest_at<const N: usize>(row: &Row, at: usize) -> [u8; N]
    requires { HasAt (IsDigestValue N) row.now at }
    ensures { column row.now at ≡ Blob result }
{
    let Ok(ValueRef::Blob(bytes)) = row.get_ref(at) else {
        unreachable!();
    };
    let Ok(digest) = <[u8; N]>::try_from(bytes) else {
        unreachable!();
    };
    digest
}

/// A digest that `digest_or_null` wrote.
pub(crate) fn digest_or_null_at(row: &Row, at: usize) -> Option<[u8; 32]>
    requires { HasAt (IsNullOr (IsDigestValue 32)) row.now at }
    ensures { column row.now at ≡ or_null Blob result }
{
    match row.get_ref(at) {
        Ok(ValueRef::Null) => None,
        _ => Some(digest_at(row, at)),
    }
}
