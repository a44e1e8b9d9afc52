//! The two halves of a socket, as those who serve its client see them. They are two values, so that what
//! is sent over the one can't hide what the other still has to give.
ghost use Rattle.std.specs.Prelude.{◌≡◌, ℕ, List, Option, None};
ghost use Rattle.dep_outbox.specs.Sockets.{Receives, Delivers, after_receive, after_send};

/// What a receive gave.
#[derive(Clone, Copy)]
pub enum Received {
    /// So many bytes, at least one.
    Bytes(usize),
    /// The client sends no more.
    Ended,
    /// Nothing is there now.
    Later,
    /// The connection is broken.
    Failed,
}

/// How much of a send the socket took.
#[derive(Clone, Copy)]
pub enum Delivered {
    /// So many bytes were taken, at least one.
    Bytes(usize),
    /// None is taken now.
    Later,
    /// The connection is broken.
    Failed,
}

/// How often a half of a socket gave or took no byte, by why, each up to 2^64 - 1. Clauses alone read it: who says
/// that a socket is to be waited for, or is done with, has asked it.
#[derive(Clone, Copy)]
pub struct Halts {
    /// Nothing was there, or none was taken, at the time.
    pub later: u64,
    /// The client sent no more.
    pub ended: u64,
    /// The connection was broken.
    pub failed: u64,
}

impl Halts {
    /// Those of a half that was never asked.
    pub const fn new() -> Halts
        ensures later { result.later ≡ 0 }
        ensures ended { result.ended ≡ 0 }
        ensures failed { result.failed ≡ 0 }
    {
        Halts {
            later: 0,
            ended: 0,
            failed: 0,
        }
    }

    /// Counts what a receive gave.
    pub fn count_received(&mut self, received: Received)
        ensures { self.new ≡ after_receive received self.old }
    {
        match received {
            Received::Bytes(_) => {}
            Received::Ended => self.ended = self.ended.saturating_add(1),
            Received::Later => self.later = self.later.saturating_add(1),
            Received::Failed => self.failed = self.failed.saturating_add(1),
        }
    }

    /// Counts what came of a send.
    pub fn count_delivered(&mut self, delivered: Delivered)
        ensures { self.new ≡ after_send delivered self.old }
    {
        match delivered {
            Delivered::Bytes(_) => {}
            Delivered::Later => self.later = self.later.saturating_add(1),
            Delivered::Failed => self.failed = self.failed.saturating_add(1),
        }
    }
}

/// The half of a socket that gives a client's bytes. Its calls never wait.
pub trait Source {
    ghost use Rattle.dep_outbox.specs.declared.socket.Halts.{Halts};

    /// The bytes that it will give from here on, where it shows them.
    ghost unread: { Self → Option (List ℕ) } = { λ _. None };

    /// How often its receives gave no byte, by why.
    ghost halts: { Self → Halts };

    /// Receives what is there, into a front of the room.
    fn receive(&mut self, room: &mut [u8]) -> Received
        ensures bytes { Receives (unread self.old) (unread self.new) room.new result }
        ensures counts { halts self.new ≡ after_receive result (halts self.old) };
}

/// The half of a socket that takes the bytes for a client. Its calls never wait.
pub trait Sink {
    ghost use Rattle.dep_outbox.specs.declared.socket.Halts.{Halts};

    /// The bytes that it took, where it shows them.
    ghost taken: { Self → Option (List ℕ) } = { λ _. None };

    /// How often its sends took no byte, by why.
    ghost halts: { Self → Halts };

    /// Sends a prefix of the bytes.
    fn send(&mut self, bytes: &[u8]) -> Delivered
        ensures bytes { Delivers (taken self.old) (taken self.new) bytes.now result }
        ensures counts { halts self.new ≡ after_send result (halts self.old) };

    /// Shuts down the half that sends, so that the client sees that nothing more comes.
    fn finish(&mut self)
        ensures taken { taken self.new ≡ taken self.old }
        ensures counts { halts self.new ≡ halts self.old };
}
