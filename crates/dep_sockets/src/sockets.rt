//! What happens at the sockets of the system.

use crate::acceptor::Entrance;
use crate::file_spool::FileSpool;
use crate::readiness::Poller;
use crate::round_clock::RoundClock;
use crate::socket::{SocketSink, SocketSource, halves};
use crate::spools::Spools;
use crate::stop_file::StopFile;
use dep_host::{Client, Event, Events, MOST_SEATS};
use dep_outbox::Wire;
use std::alloc::Global;
use std::error::Error;
use std::fs::Files;
use std::net::Net;
use std::rc::Rc;
use std::time::{Clock, Duration, Instant};
use std::{fmt, io};

/// How many seconds it sleeps at most, so that connections that are silent for too long are closed.
const NAP: u64 = 1;

type SocketClient<'a, R> = Client<SocketSource, SocketSink, FileSpool<'a, R>>;

/// Why no more events come. It is displayed as one line.
#[derive(Clone, Copy, Debug)]
pub enum SocketFault {
    /// There was no memory.
    Memory,
    /// The system doesn't say what is ready.
    Poll,
}

impl fmt::Display for SocketFault {
    fn fmt<W: fmt::Write>(&self, f: &mut fmt::Formatter<W>) -> fmt::Result {
        f.write_str(match self {
            SocketFault::Memory => "there is no memory to wait for its sockets",
            SocketFault::Poll => "waiting for its sockets failed",
        })
    }
}

impl Error for SocketFault {}

/// Which kind of event is next.
#[derive(Clone, Copy)]
enum EventKind {
    /// Which sockets are ready, and then that a round is due.
    Reporting,
    /// The clients that are let in, so many of them so far.
    LettingIn(usize),
}

/// The sockets of the system: an address that is listened at, and the connections whose clients were let in there.
#[derive(Drop)]
pub struct Sockets<'a, R: Files> {
    alloc: Global,
    spools: &'a Spools<'a, R>,
    /// It listens no more once it was told to stop.
    poller: Poller,
    stage: EventKind,
    /// How many clients are let in yet at most.
    remaining: u64,
    stop: StopFile<'a, R>,
    /// Each open connection owns it too.
    open: Rc<()>,
    clock: RoundClock<'a, R>,
    pub(crate) fault: Option<SocketFault>,
    has_ended: bool,
}

impl<'a, R: Files + Net + Clock> Sockets<'a, R> {
    /// Listens at the address of the entrance.
    pub fn listen(
        alloc: Global,
        rt: &'a R,
        spools: &'a Spools<'a, R>,
        entrance: Entrance<'a>,
    ) -> io::Result<Sockets<'a, R>> {
        let start = Instant::now(rt)?;
        let open = Rc::new(alloc, ())?;
        let poller = Poller::listening(alloc, rt, entrance.address)?;
        Ok(Sockets {
            alloc,
            spools,
            poller,
            stage: EventKind::LettingIn(0),
            remaining: entrance.clients,
            stop: StopFile::new(rt, entrance.stop_file),
            open,
            clock: RoundClock::new(rt, start),
            fault: None,
            has_ended: false,
        })
    }

    /// Waits until a socket is ready, or only looks where something is to be done, and not even that where it has just
    /// looked. It returns whether it could: not where all clients were let in, and have left.
    fn go_on(&mut self, is_busy: bool) -> bool {
        if self.remaining == 0 && Rc::strong_count(&self.open) == 1 {
            return false;
        }
        if self.clock.serves_next(is_busy) {
            return true;
        }
        let nap = Duration::from_secs(if is_busy { 0 } else { NAP });
        match self.poller.wait(nap) {
            Ok(()) => {
                self.clock.note_look();
                true
            }
            Err(fault) => {
                self.fault = Some(fault);
                false
            }
        }
    }

    /// The next client that waits, if there is a vacancy, where it is seated, and the system has room for it.
    fn let_in(&mut self, vacancy: Option<usize>, count: usize) -> Option<SocketClient<'a, R>> {
        let Some(at) = vacancy else {
            return None;
        };
        if self.remaining == 0 || count >= MOST_SEATS {
            return None;
        }
        let Some((mut stream, address)) = self.poller.accept() else {
            return None;
        };
        self.stage = EventKind::LettingIn(count + 1);
        self.remaining = self.remaining.saturating_sub(1);
        if !self.poller.add(&mut stream, at) {
            return None;
        }
        let Ok((source, sink)) = halves(self.alloc, stream, &self.open) else {
            return None;
        };
        let wire = Wire::new(self.alloc, sink, FileSpool::new(self.spools));
        Some(Client::new(source, wire, address.ip()))
    }
}

impl<'a, R: Files + Net + Clock> Events<SocketSource, SocketSink, FileSpool<'a, R>>
    for Sockets<'a, R> {
    ghost is_over = { λ s. s.has_ended };

    // Which sockets are ready, by the system, then a round, then the clients that are let in, and so on. Before a client is
    // let in it looks whether it is told to stop.
    fn next(
        &mut self,
        vacancy: Option<usize>,
        is_busy: bool,
    ) -> Event<SocketSource, SocketSink, FileSpool<'a, R>> {
        if let EventKind::LettingIn(count) = self.stage {
            let second = self.clock.elapsed().as_secs();
            if self.stop.reports(second) {
                self.poller.close();
                return Event::Stop(second);
            }
            if let Some(client) = self.let_in(vacancy, count) {
                return Event::Client(client);
            }
            if !self.go_on(is_busy | (count > 0)) {
                self.has_ended = true;
                return Event::End;
            }
            self.stage = EventKind::Reporting;
        }
        let Some(ready) = self.poller.pop() else {
            self.stage = EventKind::LettingIn(0);
            return Event::Round(self.clock.begin_round());
        };
        Event::Ready {
            at: ready.at,
            is_readable: ready.is_readable,
            is_writable: ready.is_writable,
        }
    }
}
