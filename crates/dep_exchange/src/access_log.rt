//! What is told of each request and its reply, for a log of them.

use dep_types::Refusal;

/// A log that is told of each item that is answered. What is sent and kept doesn't depend on it.
pub trait AccessLog {
    /// A whole request is answered next: its method as it was sent, the path of its target without the query
    /// and not decoded, and how many bytes its content has. What a stream has in place of a request is
    /// answered without it, and so is a client that waits for `100 Continue`.
    fn request(&mut self, method: &[u8], path: &str, length: u64);

    /// A reply of this status is written next, and why the request is refused, if it is: an item's own reply, or
    /// a fixed one in its place, which has no refusal. A `100 Continue` is written without it. Whether the write
    /// fails is seen by the outlet.
    fn reply(&mut self, status: u16, refusal: Option<Refusal>);
}

/// A log that keeps nothing.
#[derive(Clone, Copy)]
pub struct NoLog;

impl AccessLog for NoLog {
    fn request(&mut self, method: &[u8], path: &str, length: u64) {}

    fn reply(&mut self, status: u16, refusal: Option<Refusal>) {}
}
