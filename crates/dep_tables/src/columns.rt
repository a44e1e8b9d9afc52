//! What the columns of a row hold.

ghost use Rattle.std.specs.Prelude.{◌↔◌, IsTrue, All};
ghost use Rattle.sqlite_value.specs.Value.{owned};
ghost use Rattle.dep_tables.specs.Rows.{IsOfKind, HasKinds};

use sqlite::Row;
use sqlite::types::ValueRef;

/// What a column holds.
#[derive(Clone, Copy)]
pub enum ColumnKind {
    /// A number from 0 on.
    Number,
    /// 0 or 1.
    Flag,
    /// A text of UTF-8.
    Text,
    /// A text of UTF-8, or NULL.
    TextOrNull,
    /// A digest of 32 bytes.
    Sha256,
    /// A digest of 32 bytes, or NULL.
    Sha256OrNull,
    /// A digest of 64 bytes.
    Sha512,
    /// Bytes, however many.
    Bytes,
}

fn is_of_kind(value: ValueRef<'_>, kind: ColumnKind) -> bool
    ensures { IsTrue result ↔ IsOfKind kind (owned value.entry) }
{
    match (kind, value) {
        (ColumnKind::Number, ValueRef::Int(n)) => n >= 0,
        (ColumnKind::Flag, ValueRef::Int(n)) => n == 0 || n == 1,
        (ColumnKind::Text | ColumnKind::TextOrNull, ValueRef::Text(text)) => {
            std::str::from_utf8(text).is_ok()
        }
        (ColumnKind::Sha256 | ColumnKind::Sha256OrNull, ValueRef::Blob(bytes)) => bytes.len() == 32,
        (ColumnKind::Sha512, ValueRef::Blob(bytes)) => bytes.len() == 64,
        (ColumnKind::TextOrNull | ColumnKind::Sha256OrNull, ValueRef::Null) => true,
        (ColumnKind::Bytes, ValueRef::Blob(_)) => true,
        _ => false,
    }
}

/// Whether the row has as many columns, each of its kind. It takes no memory.
pub(crate) fn has_kinds(row: &Row, kinds: &[ColumnKind]) -> bool
    ensures { IsTrue result ↔ HasKinds kinds.now row.now }
{
    if row.column_count() != kinds.len() {
        return false;
    }
    'kinds: for (at, kind) in kinds.iter().enumerate() {
        match row.get_ref(at) {
            Ok(value) if is_of_kind(value, *kind) => {}
            _ => return false,
        }
    }
    true
}

/// Whether each row has such columns. It takes no memory.
pub(crate) fn have_kinds(rows: &[Row], kinds: &[ColumnKind]) -> bool
    ensures { IsTrue result ↔ All (HasKinds kinds.now) rows.now }
{
    'rows: for row in rows {
        if !has_kinds(row, kinds) {
            return false;
        }
    }
    true
}
