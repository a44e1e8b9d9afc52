//! The two halves of a socket of the system.
ghost use Rattle.std.specs.Prelude.{None};
ghost use Rattle.dep_outbox.specs.Sockets.{Receives, Delivers};

use dep_outbox::{Delivered, Halts, Received, Sink, Source};
use mio::net::TcpStream;
use std::alloc::{AllocError, Global};
use std::io::{ErrorKind, Read, Write};
use std::net::Shutdown;
use std::rc::Rc;

/// How often a call is tried again where a signal interrupts it.
const MOST_TRIES: u32 = 8;

/// A socket whose calls never wait, and what is counted while it is open.
#[derive(Drop)]
struct Socket {
    stream: TcpStream,
    _open: Rc<()>,
}

/// The half that gives a client's bytes. Contracts see nothing of them, but how often it gave none.
#[derive(Drop)]
pub struct SocketSource {
    socket: Rc<Socket>,
    halts: Halts,
}

/// The half that takes the bytes for a client. Contracts see nothing of them, but how often it took none.
#[derive(Drop)]
pub struct SocketSink {
    socket: Rc<Socket>,
    halts: Halts,
}

/// The halves of a socket whose calls never wait. It is closed once both are gone, and until then it is
/// one of the owners of `open`, who are counted.
pub(crate) fn halves(
    alloc: Global,
    stream: TcpStream,
    open: &Rc<()>,
) -> Result<(SocketSource, SocketSink), AllocError> {
    let socket = Socket {
        stream,
        _open: open.clone()?,
    };
    let socket = Rc::new(alloc, socket)?;
    let source = SocketSource {
        socket: socket.clone()?,
        halts: Halts::new(),
    };
    let halts = Halts::new();
    Ok((source, SocketSink { socket, halts }))
}

/// What a receive gave.
fn receive(mut stream: &TcpStream, room: &mut [u8]) -> Received
    ensures { Receives None None room.new result }
{
    for _ in 0..MOST_TRIES {
        match stream.read(room) {
            Ok(0) => return Received::Ended,
            Ok(n) => return Received::Bytes(n),
            Err(error) => match error.kind() {
                ErrorKind::Interrupted => {}
                ErrorKind::WouldBlock => return Received::Later,
                _ => return Received::Failed,
            },
        }
    }
    Received::Failed
}

/// What came of a send.
fn send(mut stream: &TcpStream, bytes: &[u8]) -> Delivered
    ensures { Delivers None None bytes.now result }
{
    for _ in 0..MOST_TRIES {
        match stream.write(bytes) {
            Ok(0) => return Delivered::Failed,
            Ok(n) => return Delivered::Bytes(n),
            Err(error) => match error.kind() {
                ErrorKind::Interrupted => {}
                ErrorKind::WouldBlock => return Delivered::Later,
                _ => return Delivered::Failed,
            },
        }
    }
    Delivered::Failed
}

impl Source for SocketSource {
    ghost halts = { λ s. s.halts };

    fn receive(&mut self, room: &mut [u8]) -> Received {
        let received = receive(&self.socket.stream, room);
        self.halts.count_received(received);
        received
    }
}

impl Sink for SocketSink {
    ghost halts = { λ s. s.halts };

    fn send(&mut self, bytes: &[u8]) -> Delivered {
        let delivered = send(&self.socket.stream, bytes);
        self.halts.count_delivered(delivered);
        delivered
    }

    // A client that is gone needs no telling.
    fn finish(&mut self) {
        let _ = self.socket.stream.shutdown(Shutdown::Write);
    }
}
