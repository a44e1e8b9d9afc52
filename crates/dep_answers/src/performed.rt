//! Replies that are ready to be sent.
ghost use Rattle.std.specs.Prelude.{◌≡◌};

use dep_moment::Moment;
use dep_reply::Status;
use dep_types::Refusal;

/// Which file: the number of its object, and its own.
#[derive(Clone, Copy)]
pub struct FileId {
    /// The number of the object.
    pub object: u64,
    /// The number of the file.
    pub file: u64,
}

/// A file whose content follows a reply.
#[derive(Clone, Copy)]
pub struct StoredFile {
    /// The number of its object.
    pub object: u64,
    /// Its own number.
    pub file: u64,
    /// How many bytes it has.
    pub size: u64,
}

/// A reply that is ready to be sent: no memory is needed any more, but to read a stored content.
#[derive(Drop)]
pub struct Performed {
    /// The status in its head.
    pub status: Status,
    /// Why the request was refused, if it was.
    pub refusal: Option<Refusal>,
    /// The bytes of its head, and of a document or text behind it.
    pub front: Vec<u8>,
    /// The file whose content follows, as the archive keeps it. It isn't empty.
    pub stored: Option<StoredFile>,
}

/// How a reply goes out: its date, whether it is bare, and whether the connection is closed after it.
#[derive(Clone, Copy)]
pub struct Delivery {
    /// The clock of the server.
    pub clock: Moment,
    /// The reply has no body, as that to a HEAD (RFC 9110, section 9.3.2).
    pub is_head_only: bool,
    /// The connection is closed after it.
    pub closes: bool,
}

impl Delivery {
    /// Returns how a reply goes out at this clock. Each is made here.
    pub fn new(clock: Moment, is_head_only: bool, closes: bool) -> Delivery
        ensures clock { result.clock ≡ clock }
        ensures head_only { result.is_head_only ≡ is_head_only }
        ensures closes { result.closes ≡ closes }
    {
        Delivery {
            clock,
            is_head_only,
            closes,
        }
    }
}
