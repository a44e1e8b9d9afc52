//! What a head asks of the connection.
ghost use Rattle.std.specs.Prelude.{◌≡◌};
ghost use Rattle.dep_message.specs.Heads as spec;
ghost use Rattle.dep_body.specs.declared.frame.Framing.{Framing as Frame};

use dep_body::Framing;
use dep_head::Head;
use dep_octets::split_list;

/// Whether the reply has no body, as that to a HEAD (RFC 9110, section 9.3.2).
pub fn is_without_body(head: &Head) -> bool
    ensures { result ≡ spec.is_head_only head.now }
{
    head.method() == b"HEAD".as_slice()
}

/// Whether the connection is closed after the reply: HTTP/1.0 closes it, and so does `close` in a Connection field
/// (RFC 9112, section 9.3).
#[tactic(auto, unfolding(crate::specs::Heads::closes))]
pub fn closes(head: &Head) -> bool
    ensures { result ≡ spec.closes head.now }
{
    head.minor_version() == 0 || asks_to_close(head)
}

fn asks_to_close(head: &Head) -> bool
    ensures { result ≡ spec.asks_to_close head.now }
{
    head.values("Connection").any(names_close)
}

fn names_close(value: &[u8]) -> bool
    ensures { result ≡ spec.names_close value.now }
{
    split_list(value).any(|member| member.eq_ignore_ascii_case(b"close"))
}

/// Whether the client waits for `100 Continue` before it sends the body (RFC 9110, section 10.1.1).
#[tactic(auto, unfolding(crate::specs::Heads::awaits_continue))]
pub(crate) fn awaits_continue(head: &Head, framing: Framing) -> bool
    ensures { result ≡ spec.awaits_continue head.now framing }
{
    let mut expectations = head.values("Expect");
    let Some(value) = expectations.next() else {
        return false;
    };
    expectations.next().is_none()
        && head.minor_version() == 1
        && value.eq_ignore_ascii_case(b"100-continue")
        && has_body(framing)
}

fn has_body(framing: Framing) -> bool
    ensures { result ≡ spec.has_body framing }
{
    match framing {
        Framing::Empty => false,
        Framing::Length(length) => length > 0,
        Framing::Chunked => true,
    }
}
