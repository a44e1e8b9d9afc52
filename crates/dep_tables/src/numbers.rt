//! Numbers and flags as SQL keeps them.

ghost use Rattle.std.specs.Prelude.{◌≡◌, ◌<◌, ◌^◌, pos, ◌∷◌, [], if◌then◌else◌};
ghost use Rattle.sqlite.specs.declared.types.Value.TheVariants.{Int};
ghost use Rattle.sqlite.specs.Order.{column};
ghost use Rattle.sqlite.specs.Values.{bound};
ghost use Rattle.dep_tables.specs.Rows.{flag, HasAt, IsNumberValue, IsFlagValue};

use sqlite::Row;
use sqlite::types::ValueRef;

/// One above the greatest number that SQL keeps.
pub const LIMIT: u64 = 1 << 63;

/// The number as SQL keeps it.
pub(crate) fn number(n: u64) -> i64
    requires { n < 2 ^ 63 }
    ensures { result ≡ pos n }
{
    n as i64
}

/// A number as the one parameter of a statement.
pub(crate) fn key_param(key: u64) -> [ValueRef<'static>; 1]
    requires { key < 2 ^ 63 }
    ensures { bound result ≡ Int (pos key) ∷ [] }
{
    [ValueRef::Int(number(key))]
}

/// The number in this column of a row.
pub(crate) fn number_at(row: &Row, at: usize) -> u64
    requires { HasAt IsNumberValue row.now at }
    ensures { column row.now at ≡ Int (pos result) }
{
    match row.get_ref(at) {
        Ok(ValueRef::Int(n)) => n as u64,
        _ => unreachable!(),
    }
}

/// A flag as SQL keeps it.
pub(crate) fn flag_number(b: bool) -> i64
    ensures { result ≡ pos (if b then 1 else 0) }
{
    if b { 1 } else { 0 }
}

/// The flag in this column of a row.
pub(crate) fn flag_at(row: &Row, at: usize) -> bool
    requires { HasAt IsFlagValue row.now at }
    ensures { column row.now at ≡ flag result }
{
    number_at(row, at) == 1
}
