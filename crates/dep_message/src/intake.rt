//! Takes the items of a connection's bytes, in whatever pieces these come.
ghost use Rattle.std.specs.Prelude.{◌≡◌, ◌<◌, [], length, false, MatchResult, OnOk, OnErr};
ghost use Rattle.dep_message.specs.Places.{Reading, Open, Shut, place_with, shut_reading, HasBytes};
ghost use Rattle.dep_message.specs.Giving.{GivesStep, HasFirstHead};
ghost use Rattle.dep_message.specs.Showing.{ShowsNext};

use crate::heads::closes;
use crate::message::Message;
use crate::preview::Preview;
use crate::progress::Found;
use crate::unparsed::Unparsed;
use dep_types::Refusal;
use std::alloc::{AllocError, Global};
use std::marker::Model;
use std::mem;

/// The next item of a stream, or why there is none.
#[derive(Drop)]
pub enum Step {
    /// The client of the next request waits for `100 Continue` (RFC 9110, section 10.1.1).
    Continue100,
    /// A whole request, and whether the connection is closed after its reply (`closes`).
    Message(Message, bool),
    /// A fault of the stream, behind which no byte is read, and whether its reply has no body.
    Refused(Refusal, bool),
    /// No item is complete. So it is for good behind a request that closes the connection.
    NeedMore,
    /// A fault was returned, or the intake was shut: nothing is read any more.
    Dead,
}

/// Whether items are read.
#[derive(Clone, Copy)]
pub(crate) enum Standing {
    Live,
    /// A request that closes the connection was given, and behind it nothing is read.
    Closed,
    /// A fault was returned, or the intake was shut.
    Dead,
}

/// The bytes of a connection that no item has used. It keeps how far they were read, so that no byte of a body is read
/// again for a later piece. Of a body in chunks the bytes that were read are in memory no more, and its content is.
#[derive(Drop)]
pub struct Intake {
    unparsed: Unparsed,
    standing: Standing,
}

impl Model for Intake {
    ghost use Rattle.dep_message.specs.Places.{Reading};

    ghost Value = { Reading };

    ghost use Rattle.dep_message.specs.Working.{reading_of, IsWorking};

    ghost view = { λ i. reading_of i.standing i.unparsed };

    ghost invariant = { λ i. IsWorking i.unparsed };
}

impl Intake {
    /// An intake of a new connection, for contents of at most `max_upload` bytes. It takes no memory.
    pub fn new(alloc: Global, max_upload: u64) -> Intake
        ensures { result ≡ record { limit = max_upload; place = Open false []; is_dead = false } }
    {
        Intake {
            unparsed: Unparsed::new(alloc, max_upload),
            standing: Standing::Live,
        }
    }

    /// Takes the next piece of the stream. An `Err` changes nothing.
    pub fn feed(&mut self, piece: &[u8]) -> Result<(), AllocError>
        ensures ok { OnOk result
            (self.new ≡ record self.old { place = place_with self.old.place piece.now }) }
        ensures err { OnErr result
            ((self.new ≡ self.old) × HasBytes (place_with self.old.place piece.now)) }
        ensures copied { OnErr result (0 < length piece.now) }
    {
        match self.standing {
            Standing::Live if !piece.is_empty() => self.unparsed.feed(piece),
            _ => Ok(()),
        }
    }

    /// Nothing is read any more, and the intake is `Dead`, as behind a fault: for a connection that ends before its stream
    /// does.
    pub fn shut(&mut self)
        ensures { self.new ≡ shut_reading self.old }
    {
        self.end(true);
    }

    // Nothing is read any more.
    fn end(&mut self, is_dead: bool)
        ensures { self.new ≡ record self.old { place = Shut; is_dead = is_dead } }
    {
        let unparsed = Unparsed::new(self.unparsed.alloc, self.unparsed.limit);
        drop(mem::replace(&mut self.unparsed, unparsed));
        self.standing = if is_dead {
            Standing::Dead
        } else {
            Standing::Closed
        };
    }

    /// Shows the next request, where it has come whole, before `next` takes it, and returns whether one was shown. Nothing
    /// is taken: `next` gives a request, a fault or a `100 Continue` that stands first as before, and reads no byte of it
    /// again. An `Err` is lack of memory.
    pub fn preview<P: Preview>(&mut self, by: &mut P) -> Result<bool, AllocError>
        ensures stays { self.new ≡ self.old }
        ensures shows { MatchResult result
            (ShowsNext P.sees by.old by.new self.old.limit self.old.place)
            (λ _. HasFirstHead self.old.place × (by.new ≡ by.old)) }
    {
        match self.standing {
            Standing::Live => self.unparsed.preview(by),
            Standing::Closed | Standing::Dead => Ok(false),
        }
    }

    /// Takes the first item, where one is complete. An `Err` is lack of memory, and changes nothing. Behind a
    /// fault the intake is `Dead`. Behind a request that closes the connection (`closes`) no byte is read,
    /// and it returns `NeedMore`.
    pub fn next(&mut self) -> Result<Step, AllocError>
        ensures { MatchResult result (GivesStep self.old self.new)
            (λ _. (self.new ≡ self.old) × HasBytes self.old.place × HasFirstHead self.old.place) }
    {
        match self.standing {
            Standing::Live => {}
            Standing::Closed => return Ok(Step::NeedMore),
            Standing::Dead => return Ok(Step::Dead),
        }
        match self.unparsed.next()? {
            None => Ok(Step::NeedMore),
            Some(Found::Continue) => Ok(Step::Continue100),
            Some(Found::Fault(refusal, head_only)) => {
                self.shut();
                Ok(Step::Refused(refusal, head_only))
            }
            Some(Found::Message(message)) => {
                let is_last = closes(&message.head);
                if is_last {
                    self.end(false);
                }
                Ok(Step::Message(message, is_last))
            }
        }
    }
}
