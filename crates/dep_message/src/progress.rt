//! How far the first request of a connection's bytes was read.
ghost use Rattle.std.specs.Prelude.{◌≡◌, ◌++◌, OnOk, OnErr};
ghost use Rattle.dep_message.specs.Working.{ShowsFound};

use crate::message::Message;
use crate::preview::Preview;
use dep_body::{ChunkReader, UsedBytes};
use dep_fixity::HashedOctets;
use dep_head::Head;
use dep_types::Refusal;
use std::alloc::AllocError;
use std::mem;

/// A request whose body has a known length.
#[derive(Drop)]
pub(crate) struct SizedRequest {
    pub head: Head,
    /// The bytes of the head.
    pub used: UsedBytes,
    /// How many bytes the body has.
    pub length: usize,
    /// The bytes behind the head, which grow as they come.
    pub behind: HashedOctets,
    /// Whether those of the body are hashed as they come.
    pub is_hashed: bool,
}

/// A request whose body is in chunks.
#[derive(Drop)]
pub(crate) struct ChunkedRequest {
    pub head: Head,
    /// The bytes of the head, and those behind it that the reader was fed.
    pub used: UsedBytes,
    pub reader: ChunkReader,
}

/// What stands first in the bytes.
#[derive(Drop)]
pub(crate) enum Found {
    /// A whole request.
    Message(Message),
    /// The head of a request whose client is to be sent `100 Continue`.
    Continue,
    Fault(Refusal, bool),
}

/// What was found first in the bytes, and was not taken yet.
#[derive(Drop)]
pub(crate) struct FirstItem {
    pub item: Found,
    /// Those of its bytes that are in memory no more: of a whole request all.
    pub used: UsedBytes,
}

/// How far the first request was read.
#[derive(Drop)]
pub(crate) enum Progress {
    /// No head ends in so many bytes.
    Searched(usize),
    Sized(SizedRequest),
    Chunked(ChunkedRequest),
    First(FirstItem),
}

impl SizedRequest {
    /// Takes the next piece of the stream. The room grows to twice as much at most, and for the body alone to no more
    /// than its length.
    pub fn append(&mut self, piece: &[u8]) -> Result<(), AllocError>
        ensures head { self.new.head ≡ self.old.head }
        ensures used { self.new.used ≡ self.old.used }
        ensures length { self.new.length ≡ self.old.length }
        ensures ok { OnOk result (self.new.behind ≡ self.old.behind ++ piece.now) }
        ensures err { OnErr result (self.new.behind ≡ self.old.behind) }
    {
        self.behind.append(piece, self.length)?;
        if self.is_hashed {
            self.behind.hash_to(self.length);
        }
        Ok(())
    }
}

impl FirstItem {
    /// Shows it where it is a whole request, and returns whether it is.
    pub fn show<P: Preview>(&mut self, by: &mut P) -> bool
        ensures same { self.new ≡ self.old }
        ensures shows { ShowsFound P.sees by.old by.new self.old.item result }
    {
        match mem::replace(&mut self.item, Found::Continue) {
            Found::Message(message) => {
                drop(mem::replace(&mut self.item, Found::Message(by.preview(message))));
                true
            }
            other => {
                drop(mem::replace(&mut self.item, other));
                false
            }
        }
    }
}
