//! Tokens.
ghost use Rattle.std.specs.Prelude.{◌≡◌};
ghost use Rattle.std.specs.List.{list_all};
ghost use Rattle.dep_octets.specs.Octets.{is_token, is_token_octet};

/// Whether the text is a token: one or more ASCII letters, digits or bytes of ``!#$%&'*+-.^_`|~`` (RFC 9110, section
/// 5.6.2).
pub fn is_token(text: &[u8]) -> bool
    ensures { result ≡ is_token text.now }
{
    !text.is_empty() && has_token_octets_alone(text)
}

fn has_token_octets_alone(text: &[u8]) -> bool
    ensures { result ≡ list_all is_token_octet text.now }
{
    text.iter().all(|octet| is_token_octet(*octet))
}

/// Whether the octet is one of those that a token consists of (`tchar`, RFC 9110, section 5.6.2).
pub fn is_token_octet(octet: u8) -> bool
    ensures { result ≡ is_token_octet octet }
{
    octet.is_ascii_alphanumeric() || b"!#$%&'*+-.^_`|~".contains(&octet)
}
