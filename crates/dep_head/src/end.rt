//! Where a head ends.
ghost use Rattle.std.specs.Prelude.{◌≡◌};
ghost use Rattle.dep_head.specs.Head.{head_end};

use memchr::memmem;

/// How many bytes a head has at most, its end included.
pub const HEAD_LIMIT: usize = 16_384;

/// The length of the shortest prefix of `text` that ends with CR LF CR LF. It takes no memory.
pub fn find_end(text: &[u8]) -> Option<usize>
    ensures { result ≡ head_end text.now }
{
    match memmem::find(text, b"\r\n\r\n") {
        Some(start) => Some(start + 4),
        None => None,
    }
}
