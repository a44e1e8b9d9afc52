//! The parts that a field is made of.
ghost use Rattle.std.specs.Prelude.{◌≡◌, take, drop};
ghost use Rattle.std.specs.List.{prefix_len};
ghost use Rattle.dep_octets.specs.Octets.{is_token_octet, is_blank, trim_start};
ghost use Rattle.dep_params.specs.Grammar.{is_bare_octet};

use dep_octets::is_token_octet;

// The longest token at the front, and what follows it.
pub(crate) fn split_token(text: &[u8]) -> (&[u8], &[u8])
    ensures token { result.0.now ≡ take (prefix_len is_token_octet text.now) text.now }
    ensures rest { result.1.now ≡ drop (prefix_len is_token_octet text.now) text.now }
{
    let mut end = 0;
    while end < text.len() && is_token_octet(text[end]) {
        end += 1;
    }
    text.split_at(end)
}

// The longest run of octets of a bare value at the front, and what follows it.
pub(crate) fn split_bare(text: &[u8]) -> (&[u8], &[u8])
    ensures run { result.0.now ≡ take (prefix_len is_bare_octet text.now) text.now }
    ensures rest { result.1.now ≡ drop (prefix_len is_bare_octet text.now) text.now }
{
    let mut end = 0;
    while end < text.len() && is_bare_octet(text[end]) {
        end += 1;
    }
    text.split_at(end)
}

// The text behind the spaces and tabs at its front.
pub(crate) fn skip_blanks(text: &[u8]) -> &[u8]
    ensures { result.now ≡ trim_start text.now }
{
    let mut start = 0;
    while start < text.len() && is_blank(text[start]) {
        start += 1;
    }
    &text[start..]
}

fn is_bare_octet(octet: u8) -> bool
    ensures { result ≡ is_bare_octet octet }
{
    octet.is_ascii_graphic() && octet != b';' && octet != b'"'
}

fn is_blank(octet: u8) -> bool
    ensures { result ≡ is_blank octet }
{
    octet == b' ' || octet == b'\t'
}
