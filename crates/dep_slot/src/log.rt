//! What is told of each connection, for a log of them.
ghost use Rattle.std.specs.Prelude.{◌≡◌, List, [], ◌∷◌, Option, None};
ghost use Rattle.dep_slot.specs.Notes.{Note, LetIn, Rejected, LetGo, GrowsWhereShown};

use dep_hub::{AccessLog, ConnId, Next, SentOn};
use std::net::IpAddr;

/// Why a client was rejected.
#[derive(Clone, Copy)]
pub enum Rejection {
    /// As many connections as may be come from its address.
    Address,
    /// No further connection can be opened.
    Full,
    /// There was no memory.
    Memory,
    /// The store is shut.
    Shut,
    /// The host was told to stop.
    Stopped,
}

/// Why a connection was closed.
#[derive(Clone, Copy)]
pub enum Closing {
    /// It was over: its client ended it after the last reply or before, or its socket or spool failed.
    Over,
    /// It was silent for too long.
    Silent,
    /// Its client sent or took too few bytes in the time.
    Slow,
    /// More bytes of unfinished requests were kept than may be, and of no connection more.
    Large,
}

/// How many bytes were read and sent.
#[derive(Clone, Copy)]
pub struct Bytes {
    pub received: u64,
    pub sent: u64,
}

/// A log that is told of a host's connections. What is sent and kept doesn't depend on it.
pub trait HostLog {
    /// What is told of one item, between `answering` and `answered`.
    type Item: AccessLog + Drop;

    /// What it was told so far of the clients that came and went, where it shows that.
    ghost notes: { Self → Option (List Note) } = { λ _. None };

    /// A client was let in.
    fn opened(&mut self, connection: ConnId, address: IpAddr)
        ensures noted { GrowsWhereShown (notes self.old) (notes self.new)
            (LetIn connection address ∷ []) };

    /// A client was rejected.
    fn refused(&mut self, address: IpAddr, refusal: Rejection)
        ensures noted { GrowsWhereShown (notes self.old) (notes self.new)
            (Rejected address refusal ∷ []) };

    /// The next item of a connection is answered, where one is complete. None may be.
    fn answering(&mut self, connection: ConnId, address: IpAddr) -> Self::Item
        ensures noted { notes self.new ≡ notes self.old };

    /// It isn't answered yet, as it has to wait for what is sent to others, or until its uploads are hashed. It is
    /// asked for again.
    fn kept_back(&mut self, item: Self::Item)
        ensures noted { notes self.new ≡ notes self.old };

    /// What that was told of it, how the connection stands then, how many bytes were read of it since the item
    /// before, and how many the wire took for the reply, which is whole, or was cut.
    fn answered(&mut self, item: Self::Item, next: Next, bytes: Bytes)
        ensures noted { notes self.new ≡ notes self.old };

    /// The same in place of `answered`, where the content of a file is still to be sent behind the reply: the
    /// wire took so many bytes as yet.
    fn begun(&mut self, item: Self::Item, bytes: Bytes)
        ensures noted { notes self.new ≡ notes self.old };

    /// No more is sent of the content behind the last reply of a connection: `All` of it was, it is `Broken`, or
    /// the connection is closed next, with a `Part` sent. The wire took so many bytes for the whole reply. It is
    /// told once for each `begun`.
    fn sent(&mut self, connection: ConnId, address: IpAddr, sent_on: SentOn, bytes: u64)
        ensures noted { notes self.new ≡ notes self.old };

    /// A connection was closed, of which so many bytes were read, and so many taken by its socket.
    fn closed(&mut self, connection: ConnId, address: IpAddr, closing: Closing, bytes: Bytes)
        ensures noted { GrowsWhereShown (notes self.old) (notes self.new)
            (LetGo connection closing ∷ []) };

    /// Nothing can go on at once: what it was told may be written now.
    fn rest(&mut self)
        ensures noted { notes self.new ≡ notes self.old };
}
