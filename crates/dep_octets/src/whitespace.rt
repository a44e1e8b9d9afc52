//! White space at the ends of a text.
ghost use Rattle.std.specs.Prelude.{◌≡◌};
ghost use Rattle.dep_octets.specs.Octets.{is_blank, trim_start, trim_end, trimmed};

/// The text without the spaces and tabs at its two ends, which are optional white space (RFC 9110, section 5.6.3).
/// What stands between stays as it is.
#[tactic(auto, unfolding(crate::specs::Octets::trimmed))]
pub fn trim_ows(text: &[u8]) -> &[u8]
    ensures { result.now ≡ trimmed text.now }
{
    trim_end(trim_start(text))
}

fn trim_start(text: &[u8]) -> &[u8]
    ensures { result.now ≡ trim_start text.now }
{
    let mut start = 0;
    while start < text.len() && is_blank(text[start]) {
        start += 1;
    }
    &text[start..]
}

fn trim_end(text: &[u8]) -> &[u8]
    ensures { result.now ≡ trim_end text.now }
{
    let mut end = text.len();
    while end > 0 && is_blank(text[end - 1]) {
        end -= 1;
    }
    &text[..end]
}

// A space or a tab.
fn is_blank(octet: u8) -> bool
    ensures { result ≡ is_blank octet }
{
    octet == b' ' || octet == b'\t'
}
