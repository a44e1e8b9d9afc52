//! What the system says of sockets, as events of a host.
ghost use Rattle.std.specs.Prelude.{◌≡◌, ◌++◌, IfOk, OnOk};
ghost use Rattle.mio.specs.Events.{items};
ghost use Rattle.dep_sockets.specs.Readiness.{ready_of, readies_of, has_listener};

use crate::sockets::SocketFault;
use dep_host::MOST_SEATS;
use mio::event::Event;
use mio::net::{TcpListener, TcpStream};
use mio::{Events, Interest, Poll, Token};
use std::alloc::{AllocError, Global};
use std::io::{self, ErrorKind};
use std::net::{Net, SocketAddr};
use std::time::Duration;

/// The token of the listener; those of connections are their places, which are smaller.
const LISTENER: Token = Token(MOST_SEATS);

/// How many sockets can be ready at once: those of all connections and the listener.
const MOST_READY: usize = MOST_SEATS + 1;

/// How often accepting is tried again where a client is gone before it is let in.
const MOST_TRIES: u32 = 64;

/// A connection whose socket may be ready.
#[derive(Clone, Copy)]
pub(crate) struct Ready {
    /// Its place.
    pub(crate) at: usize,
    pub(crate) is_readable: bool,
    pub(crate) is_writable: bool,
}

/// An address that is listened at, and the sockets of which the system says when they are ready, with what it said of
/// connections and wasn't taken yet.
#[derive(Drop)]
pub(crate) struct Poller {
    poll: Poll,
    polled: Events,
    ready: Vec<Ready>,
    /// There is none once it was closed, so that who comes then is rejected by the system.
    listener: Option<TcpListener>,
    /// Whether a client may wait to be let in.
    is_waited_for: bool,
}

impl Poller {
    /// Listens at the address, and watches whether a client waits there, with room for what is said of all sockets at
    /// once.
    pub fn listening<R: Net>(alloc: Global, rt: &R, address: SocketAddr) -> io::Result<Poller> {
        let polled = Events::with_capacity(alloc, MOST_READY)?;
        let ready = Vec::with_capacity(alloc, MOST_READY)?;
        let poll = Poll::new(rt)?;
        let mut listener = TcpListener::bind(rt, address)?;
        let registry = poll.registry();
        registry.register(&mut listener, LISTENER, Interest::READABLE)?;
        Ok(Poller {
            poll,
            polled,
            ready,
            listener: Some(listener),
            is_waited_for: true,
        })
    }

    /// Listens no more.
    pub fn close(&mut self) {
        drop(self.listener.take());
    }

    /// The next client that waits, if one may. Where the system gives none, as for want of descriptors, it is asked again
    /// in another round.
    pub fn accept(&mut self) -> Option<(TcpStream, SocketAddr)> {
        if !self.is_waited_for {
            return None;
        }
        let Some(listener) = &self.listener else {
            return None;
        };
        for _ in 0..MOST_TRIES {
            match listener.accept() {
                Ok(client) => return Some(client),
                Err(error) => match error.kind() {
                    ErrorKind::Interrupted | ErrorKind::ConnectionAborted => {}
                    ErrorKind::WouldBlock => {
                        self.is_waited_for = false;
                        return None;
                    }
                    _ => return None,
                },
            }
        }
        None
    }

    /// Watches the socket of the connection at a place too, which sends at once. It returns whether it can.
    pub fn add(&self, stream: &mut TcpStream, at: usize) -> bool {
        // Else a short content would wait until its client has acknowledged the head.
        let _ = stream.set_nodelay(true);
        let interest = Interest::READABLE | Interest::WRITABLE;
        let registry = self.poll.registry();
        registry.register(stream, Token(at), interest).is_ok()
    }

    /// Waits until a socket is ready, for so long at most.
    pub fn wait(&mut self, nap: Duration) -> Result<(), SocketFault> {
        if self.poll.poll(&mut self.polled, Some(nap)).is_err() {
            return Err(SocketFault::Poll);
        }
        match note_all(&self.polled, LISTENER, &mut self.ready) {
            Ok(is_waited_for) => {
                self.is_waited_for |= is_waited_for;
                Ok(())
            }
            Err(AllocError) => Err(SocketFault::Memory),
        }
    }

    /// Takes a connection that is ready, if any is left.
    pub fn pop(&mut self) -> Option<Ready> {
        self.ready.pop()
    }
}

/// Notes the connections that are ready behind those that were noted. It returns whether the listener is
/// among them.
fn note_all(polled: &Events, listener: Token, ready: &mut Vec<Ready>) -> Result<bool, AllocError>
    ensures noted { OnOk result
        (ready.new.items ≡ ready.old.items ++ readies_of listener.0 (items polled.now)) }
    ensures reported { IfOk result (λ reported. reported ≡ has_listener listener.0 (items polled.now)) }
{
    let mut is_waited_for = false;
    for event in polled {
        if event.token() == listener {
            is_waited_for = true;
        } else {
            ready.push(ready_of(event))?;
        }
    }
    Ok(is_waited_for)
}

/// What an event says of a connection. One whose socket failed or was shut may be read and written, which
/// shows how.
fn ready_of(event: &Event) -> Ready
    ensures { result ≡ ready_of event.now }
{
    let is_broken = event.is_error() || event.is_read_closed() || event.is_write_closed();
    Ready {
        at: event.token().0,
        is_readable: event.is_readable() || is_broken,
        is_writable: event.is_writable() || is_broken,
    }
}
