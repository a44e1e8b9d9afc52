//! Bytes that come at the end and go at the front.
ghost use Rattle.std.specs.Prelude.{◌≡◌, ◌<◌, ◌≤◌, ◌++◌, [], length, take, drop, IfOk, OnOk, OnErr};

use crate::used::UsedBytes;
use std::alloc::{AllocError, Global};
use std::marker::Model;

/// Bytes that come at the end and go at the front. What is left isn't moved when some go, until it is less than a
/// quarter of the room.
#[derive(Drop)]
pub struct Buffer {
    alloc: Global,
    bytes: Vec<u8>,
    /// How many of the bytes, at the front, are gone.
    gone: usize,
}

impl Model for Buffer {
    ghost use Rattle.std.specs.Prelude.{List, ℕ, ◌≤◌, drop, length};

    ghost Value = { List ℕ };

    ghost view = { λ b. drop b.gone b.bytes.items };

    ghost invariant = { λ b. b.gone ≤ length b.bytes.items };
}

impl Buffer {
    /// No bytes. It takes no memory.
    pub fn new(alloc: Global) -> Buffer
        ensures { result ≡ [] }
    {
        Buffer {
            alloc,
            bytes: Vec::new(alloc),
            gone: 0,
        }
    }

    /// The bytes that are left.
    pub fn as_slice(&self) -> &[u8]
        ensures { result.now ≡ self.now }
    {
        &self.bytes.as_slice()[self.gone..]
    }

    /// Adds a piece at the end. An `Err` is lack of memory, and changes nothing.
    pub fn append(&mut self, piece: &[u8]) -> Result<(), AllocError>
        ensures ok { OnOk result (self.new ≡ self.old ++ piece.now) }
        ensures err { OnErr result (self.new ≡ self.old) }
        ensures wanted { OnErr result (0 < length piece.now) }
    {
        self.bytes.extend_from_slice(piece)
    }

    /// A copy of the bytes behind the first `start`, of at most `count`.
    pub fn copy_behind(&self, start: usize, count: usize) -> Result<Vec<u8>, AllocError>
        requires { start ≤ length self.now }
        ensures { IfOk result (λ copy. copy.items ≡ take count (drop start self.now)) }
    {
        let behind = &self.as_slice()[start..];
        Vec::from_slice(self.alloc, &behind[..behind.len().min(count)])
    }

    /// Drops so many bytes at the front, which are used. It gives room back where memory allows, and never fails.
    pub fn drop_front(&mut self, count: usize) -> UsedBytes
        requires { count ≤ length self.old }
        ensures used { result.items ≡ take count self.old }
        ensures rest { self.new ≡ drop count self.old }
    {
        let used = UsedBytes::new().and(&self.as_slice()[..count]);
        self.gone += count;
        self.free_room();
        used
    }

    /// Drops all bytes. The room stays for the next ones.
    pub fn clear(&mut self)
        ensures { self.new ≡ [] }
    {
        self.bytes.clear();
        self.gone = 0;
    }

    // Moves what is left into room of its own size, where it is less than a quarter of the room and memory allows. So no
    // more bytes are moved than are gone.
    fn free_room(&mut self)
        ensures { self.new ≡ self.old }
    {
        if self.as_slice().len() >= self.bytes.capacity() / 4 {
            return;
        }
        if let Ok(bytes) = Vec::from_slice(self.alloc, self.as_slice()) {
            self.bytes = bytes;
            self.gone = 0;
        }
    }
}
