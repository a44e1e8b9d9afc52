//! The head of a reply as bytes.
ghost use Rattle.std.specs.Prelude.{◌≡◌, IfOk, OnOk};
ghost use Rattle.std.specs.Option.{option_copied};
ghost use Rattle.dep_reply.specs.Head.{GrowsByBytes, head_text, field, optional_field, number_field, tag_field, status_line};
ghost use Rattle.dep_reply.specs.Statuses.{status_number};

use crate::reply::Reply;
use crate::status::Status;
use itoa::Buffer;
use std::alloc::{AllocError, Global};

/// Returns the head of a reply with its empty line: a status line (RFC 9112, section 4) and a line for each field
/// that the reply has (RFC 9112, section 5). An `Err` is lack of memory.
#[tactic(auto, unfolding(crate::specs::Head::head_text))]
pub fn spell_head(alloc: Global, reply: &Reply) -> Result<Vec<u8>, AllocError>
    ensures { IfOk result (λ bytes. bytes.items ≡ head_text reply.now) }
{
    let mut head = Vec::with_capacity(alloc, 256)?;
    push_status_line(&mut head, reply.status)?;
    push_field(&mut head, "Date", &reply.date.http_date())?;
    push_text(&mut head, "Content-Type", reply.content_type)?;
    push_number(&mut head, "Content-Length", reply.content_length)?;
    push_tag(&mut head, reply.tag)?;
    push_text(&mut head, "Location", reply.location)?;
    push_text(&mut head, "Allow", reply.allow)?;
    if reply.closes {
        push_field(&mut head, "Connection", b"close")?;
    }
    head.extend_from_slice(b"\r\n")?;
    Ok(head)
}

#[tactic(auto, unfolding(crate::specs::Head::status_line))]
fn push_status_line(head: &mut Vec<u8>, status: Status) -> Result<(), AllocError>
    ensures { OnOk result
        (GrowsByBytes head.old.items head.new.items (status_line (status_number status))) }
{
    let mut digits = Buffer::new();
    head.extend_from_slice(b"HTTP/1.1 ")?;
    head.extend_from_slice(digits.format(status.number()).as_bytes())?;
    head.extend_from_slice(b" ")?;
    head.extend_from_slice(status.phrase().as_bytes())?;
    head.extend_from_slice(b"\r\n")
}

fn push_field(head: &mut Vec<u8>, name: &str, value: &[u8]) -> Result<(), AllocError>
    ensures { OnOk result (GrowsByBytes head.old.items head.new.items (field name.now value.now)) }
{
    head.extend_from_slice(name.as_bytes())?;
    head.extend_from_slice(b": ")?;
    head.extend_from_slice(value)?;
    head.extend_from_slice(b"\r\n")
}

fn push_text(head: &mut Vec<u8>, name: &str, value: Option<&str>) -> Result<(), AllocError>
    ensures { OnOk result
        (GrowsByBytes head.old.items head.new.items (optional_field name.now (option_copied value.entry))) }
{
    let Some(text) = value else {
        return Ok(());
    };
    push_field(head, name, text.as_bytes())
}

fn push_number(head: &mut Vec<u8>, name: &str, value: Option<u64>) -> Result<(), AllocError>
    ensures { OnOk result
        (GrowsByBytes head.old.items head.new.items (number_field name.now value)) }
{
    let Some(number) = value else {
        return Ok(());
    };
    let mut digits = Buffer::new();
    push_field(head, name, digits.format(number).as_bytes())
}

fn push_tag(head: &mut Vec<u8>, value: Option<u64>) -> Result<(), AllocError>
    ensures { OnOk result (GrowsByBytes head.old.items head.new.items (tag_field value)) }
{
    let Some(tag) = value else {
        return Ok(());
    };
    let mut digits = Buffer::new();
    head.extend_from_slice(b"ETag: \"")?;
    head.extend_from_slice(digits.format(tag).as_bytes())?;
    head.extend_from_slice(b"\"\r\n")
}
