//! The values of the fields of one name, as one text.
ghost use Rattle.std.specs.Prelude.{◌≡◌, IfOk};
ghost use Rattle.std.specs.List.{join_with_byte};
ghost use Rattle.dep_head.specs.Head.{values_of};
ghost use Rattle.dep_fields.specs.Values.{single, texts};

use crate::field::Field;
use dep_head::{Head, Values};
use std::alloc::{AllocError, Global};

/// The text of the field with this name, which is bad where it stands twice.
pub(crate) fn single<'a>(head: &'a Head, name: &'a str) -> Field<&'a [u8]>
    ensures { texts result ≡ single (values_of head.now.fields name.now) }
{
    let mut values = head.values(name);
    let Some(text) = values.next() else {
        return Field::Absent;
    };
    match values.next() {
        None => Field::Value(text),
        Some(_) => Field::Bad,
    }
}

/// The texts with a comma between each two.
pub(crate) fn joined(alloc: Global, mut values: Values<'_>) -> Result<Vec<u8>, AllocError>
    ensures { IfOk result (λ text. text.items ≡ join_with_byte 44 values.entry) }
{
    let Some(first) = values.next() else {
        return Ok(Vec::new(alloc));
    };
    let mut text = Vec::from_slice(alloc, first)?;
    for value in values {
        text.push(b',')?;
        text.extend_from_slice(value)?;
    }
    Ok(text)
}
