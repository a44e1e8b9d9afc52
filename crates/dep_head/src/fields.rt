//! The values of the fields of one name.
ghost use Rattle.std.specs.Prelude.{◌≡◌};
ghost use Rattle.dep_head.specs.Head.{values_of};
ghost use Rattle.dep_head.specs.Spans.{fields_at, AreWithin};
ghost use Rattle.std.specs.Iterator.{YieldsFirstRef, item_count};

use httparse::spans::HeaderSpan;
use std::marker::Model;

/// The values of a head's fields of one name, in their order.
#[derive(Drop)]
pub struct Values<'a> {
    text: &'a [u8],
    fields: &'a [HeaderSpan],
    name: &'a str,
}

impl<'a> Model for Values<'a> {
    ghost use Rattle.std.specs.Prelude.{ℕ, List};
    ghost use Rattle.dep_head.specs.Head.{values_of};
    ghost use Rattle.dep_head.specs.Spans.{fields_at, AreWithin};

    ghost Value = { List (List ℕ) };

    ghost view = { λ v. values_of (fields_at v.text.now v.fields.now) v.name.now };

    ghost invariant = { λ v. AreWithin v.text.now v.fields.now };
}

/// The values of the fields with this name, in any letter case.
pub(crate) fn values_in<'a>(text: &'a [u8], fields: &'a [HeaderSpan], name: &'a str) -> Values<'a>
    requires { AreWithin text.now fields.now }
    ensures { result ≡ values_of (fields_at text.now fields.now) name.now }
{
    Values { text, fields, name }
}

impl<'a> Iterator for Values<'a> {
    type Item = &'a [u8];

    ghost next_gives = { YieldsFirstRef (λ v. v) };

    ghost remaining = { item_count (λ v. v) };

    fn next(&mut self) -> Option<&'a [u8]> {
        while let Some((first, rest)) = self.fields.split_first() {
            self.fields = rest;
            let name = first.name.of(self.text);
            if name.eq_ignore_ascii_case(self.name.as_bytes()) {
                return Some(first.value.of(self.text));
            }
        }
        None
    }
}
