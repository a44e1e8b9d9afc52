//! The head that stands first in bytes.
ghost use Rattle.std.specs.Prelude.{◌≡◌, ◌≤◌, length, take, MatchResult};
ghost use Rattle.dep_head.specs.Head.{IsHeadText, head_end};
ghost use Rattle.dep_message.specs.Giving.{BeginsWithHead};
ghost use Rattle.dep_message.specs.Stream.{frame_refusal};
ghost use Rattle.dep_message.specs.Working.{IsSearched, FindsHead};

use crate::heads::{awaits_continue, is_without_body};
use dep_body::{FrameFault, Framing, framing};
use dep_head::{HEAD_LIMIT, Head, HeadFault, find_end, read_head};
use dep_types::Refusal;
use std::alloc::{AllocError, Global};

/// A head, how many bytes it has, and how the body behind it is framed.
#[derive(Drop)]
pub(crate) struct FramedHead {
    pub head: Head,
    pub length: usize,
    pub framing: Framing,
}

/// What stands first in bytes.
#[derive(Drop)]
pub(crate) enum FirstHead {
    /// The head of a request, whose body may come.
    Head(FramedHead),
    /// The head of a request whose client waits for `100 Continue`.
    Continue,
    Fault(Refusal, bool),
    /// No head ends in the bytes.
    Nothing,
}

/// Bytes whose first ones were searched for the end of a head.
#[derive(Clone, Copy)]
pub(crate) struct SearchedBytes<'a> {
    pub bytes: &'a [u8],
    /// So many hold no end of one.
    pub searched: usize,
    ghost is_searched: { IsSearched searched bytes.now },
}

/// Returns the head that stands first in the bytes. `continued` says that the client of the first request was
/// sent `100 Continue`.
pub(crate) fn first_head(
    alloc: Global,
    limit: u64,
    continued: bool,
    front: SearchedBytes<'_>,
) -> Result<FirstHead, AllocError>
    ensures { MatchResult result (FindsHead limit continued front.entry.bytes.now)
        (λ _. BeginsWithHead front.entry.bytes.now) }
{
    let bytes = front.bytes;
    let Some(end) = find_end_from(front) else {
        if bytes.len() >= HEAD_LIMIT {
            return Ok(FirstHead::Fault(Refusal::BadRequest, false));
        }
        return Ok(FirstHead::Nothing);
    };
    if end > HEAD_LIMIT {
        return Ok(FirstHead::Fault(Refusal::BadRequest, false));
    }
    match read_head(alloc, &bytes[..end]) {
        Err(HeadFault::Memory) => Err(AllocError),
        Err(HeadFault::NotAHead) => Ok(FirstHead::Fault(Refusal::BadRequest, false)),
        Ok(head) => Ok(framed(limit, continued, head, end, bytes)),
    }
}

// The end of the first head. Its last byte may be the first that was not searched, so three bytes are read again.
fn find_end_from(front: SearchedBytes<'_>) -> Option<usize>
    ensures { result ≡ head_end front.entry.bytes.now }
{
    let from = front.searched.saturating_sub(3);
    match find_end(&front.bytes[from..]) {
        Some(end) => Some(from + end),
        None => None,
    }
}

fn framed(limit: u64, continued: bool, head: Head, end: usize, bytes: &[u8]) -> FirstHead
    requires { (end ≤ length bytes.now) × IsHeadText (take end bytes.now) head }
    ensures { FindsHead limit continued bytes.now result }
{
    match framing(&head, limit) {
        Err(fault) => {
            let head_only = is_without_body(&head);
            drop(head);
            FirstHead::Fault(refusal_for(fault), head_only)
        }
        Ok(framing) if !continued && awaits_continue(&head, framing) => {
            drop(head);
            FirstHead::Continue
        }
        Ok(framing) => FirstHead::Head(FramedHead {
            head,
            length: end,
            framing,
        }),
    }
}

/// The refusal by which a fault of a body is answered: 413 for `TooLarge`, else 400.
pub(crate) fn refusal_for(fault: FrameFault) -> Refusal
    ensures { result ≡ frame_refusal fault }
{
    match fault {
        FrameFault::Bad => Refusal::BadRequest,
        FrameFault::TooLarge => Refusal::MaxUploadSizeExceeded,
    }
}
