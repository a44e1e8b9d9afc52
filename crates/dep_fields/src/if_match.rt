//! The tags that a request asks for.
ghost use Rattle.std.specs.Prelude.{◌≡◌, bytes_eq, decimal};
ghost use Rattle.std.specs.List.{list_any};
ghost use Rattle.dep_octets.specs.Octets.{members};
ghost use Rattle.dep_fields.specs.Tags.{holds, if_match_of, in_quotation_marks, is_met};

use dep_head::{Head, Values};
use dep_octets::split_list;
use itoa::Buffer;
use std::marker::Model;

/// The tags that a request's If-Match fields name (RFC 9110, section 13.1.1), as members of one comma list. It borrows
/// the head, and nothing here takes memory. Contracts see the list of its members.
#[derive(Drop)]
pub struct IfMatch<'a> {
    head: &'a Head,
}

impl<'a> Model for IfMatch<'a> {
    ghost use Rattle.std.specs.Prelude.{ℕ, List};
    ghost use Rattle.dep_fields.specs.Tags.{tags_of};

    ghost Value = { List (List ℕ) };

    ghost view = { λ m. tags_of m.head.now.fields };
}

impl<'a> IfMatch<'a> {
    /// The If-Match fields of a head: `None` where there is none.
    pub fn read(head: &'a Head) -> Option<IfMatch<'a>>
        ensures { result ≡ if_match_of head.now.fields }
    {
        match head.values("If-Match").next() {
            Some(_) => Some(IfMatch { head }),
            None => None,
        }
    }

    /// Whether some member is `*`, the tag in decimal digits, or those in quotation marks. A weak tag is none of these
    /// (RFC 9110, section 8.8.3.2).
    pub fn holds(&self, tag: u64) -> bool
        ensures { result ≡ holds self.now tag }
    {
        some_has_member(self.head.values("If-Match"), tag)
    }
}

// Whether some member of one of the lists is met by the tag.
fn some_has_member(mut lists: Values<'_>, tag: u64) -> bool
    ensures { result ≡ list_any (λ list. list_any (is_met tag) (members list)) lists.entry }
{
    lists.any(|list| has_member(list, tag))
}

// Whether some member of the list is met by the tag.
fn has_member(list: &[u8], tag: u64) -> bool
    ensures { result ≡ list_any (is_met tag) (members list.now) }
{
    split_list(list).any(|member| is_met(member, tag))
}

fn is_met(member: &[u8], tag: u64) -> bool
    ensures { result ≡ is_met tag member.now }
{
    let mut digits = Buffer::new();
    let digits = digits.format(tag).as_bytes();
    member == b"*".as_slice() || member == digits || is_quoted(member, digits)
}

// Whether the text is this one in quotation marks.
fn is_quoted(text: &[u8], inner: &[u8]) -> bool
    ensures { result ≡ bytes_eq text.now (in_quotation_marks inner.now) }
{
    let Some((first, behind)) = text.split_first() else {
        return false;
    };
    let Some((last, between)) = behind.split_last() else {
        return false;
    };
    if *first != b'"' {
        return false;
    }
    if *last != b'"' {
        return false;
    }
    between == inner
}
