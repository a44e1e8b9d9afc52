//! Comma lists.
ghost use Rattle.std.specs.Prelude.{◌≡◌, ◌==◌, position, ◌≤◌, ◌∷◌, length};
ghost use Rattle.dep_octets.specs.Octets.{members, parts, parts_left, octets_left};
ghost use Rattle.std.specs.Option.{option_copied};
ghost use Rattle.std.specs.Iterator.{YieldsFirstRef, item_count};

use crate::whitespace::trim_ows;
use std::marker::Model;

/// The members of a comma list that are still to come (`split_list`).
#[derive(Drop)]
pub struct SplitList<'a> {
    rest: Option<&'a [u8]>,
}

impl<'a> Model for SplitList<'a> {
    ghost use Rattle.std.specs.Prelude.{ℕ, List};
    ghost use Rattle.dep_octets.specs.Octets.{members_of, parts_left};
    ghost use Rattle.std.specs.Option.{option_copied};

    ghost Value = { List (List ℕ) };

    ghost view = { λ s. members_of (parts_left (option_copied s.rest)) };
}

/// The members of a comma list in their order, each without the white space at its ends. Empty members are passed
/// over, as RFC 9110, section 5.6.1.2 asks of a recipient. A comma between quotation marks parts members too.
pub fn split_list(text: &[u8]) -> SplitList<'_>
    ensures { result ≡ members text.now }
{
    SplitList { rest: Some(text) }
}

impl<'a> Iterator for SplitList<'a> {
    type Item = &'a [u8];

    ghost next_gives = { YieldsFirstRef (λ s. s) };

    ghost remaining = { item_count (λ s. s) };

    fn next(&mut self) -> Option<&'a [u8]> {
        while let Some(rest) = self.rest {
            let (part, after) = first_part(rest);
            self.rest = after;
            let member = trim_ows(part);
            if !member.is_empty() {
                return Some(member);
            }
        }
        None
    }
}

// The text before the first comma, and what follows the comma.
fn first_part(text: &[u8]) -> (&[u8], Option<&[u8]>)
    ensures cut { parts text.now ≡ result.0.now ∷ parts_left (option_copied result.1) }
    ensures shorter { octets_left (option_copied result.1) ≤ length text.now }
{
    match first_comma(text) {
        Some(comma) => (&text[..comma], Some(&text[comma + 1..])),
        None => (text, None),
    }
}

fn first_comma(text: &[u8]) -> Option<usize>
    ensures { result ≡ position (λ b. b == 44) text.now }
{
    text.iter().position(|b| *b == b',')
}
