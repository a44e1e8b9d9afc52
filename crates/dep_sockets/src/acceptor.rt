//! Where clients come from.
ghost use Rattle.std.specs.Prelude.{◌≡◌, Bool, false, is_some};
ghost use Rattle.std.specs.Option.{option_map_or};

use crate::file_spool::FileSpool;
use crate::socket::{SocketSink, SocketSource};
use crate::sockets::{SocketFault, Sockets};
use crate::spools::Spools;
use dep_host::{Event, Events};
use dep_outbox::{Sink, Source, Spool};
use std::alloc::Global;
use std::fs::Files;
use std::mem;
use std::net::{Net, SocketAddr};
use std::time::Clock;

/// What lets clients in, from a moment on.
pub trait Acceptor<R: Source, K: Sink, S: Spool>: Events<R, K, S> {
    /// Whether it lets clients in.
    ghost is_open: { Self → Bool };

    /// Whether it was broken off: more may come, and isn't given.
    ghost is_cut: { Self → Bool };

    /// Lets clients in from now on, and returns whether it can.
    fn open(&mut self) -> bool
        ensures reported { result ≡ is_open self.new }
        // None came meanwhile.
        ensures given { Self.given self.new ≡ Self.given self.old };

    /// Whether it was broken off, once no more is given.
    fn was_cut(&self) -> bool
        ensures { result ≡ is_cut self.now };
}

/// Where clients come in, and until when.
#[derive(Clone, Copy)]
pub struct Entrance<'a> {
    /// The address at which the program listens.
    pub address: SocketAddr,
    /// How many clients are let in at most.
    pub clients: u64,
    /// The file by which the server is told to stop: once it is there, looked for once a second.
    pub stop_file: Option<&'a str>,
}

/// An entrance at which the program listens once the acceptor is opened.
#[derive(Drop)]
pub struct SocketAcceptor<'a, R: Files> {
    alloc: Global,
    rt: &'a R,
    spools: &'a Spools<'a, R>,
    entrance: Entrance<'a>,
    /// There are none before it is opened.
    sockets: Option<Sockets<'a, R>>,
}

impl<'a, R: Files + Net + Clock> SocketAcceptor<'a, R> {
    /// An acceptor at an entrance. It listens once it is opened.
    pub fn new(
        alloc: Global,
        rt: &'a R,
        spools: &'a Spools<'a, R>,
        entrance: Entrance<'a>,
    ) -> SocketAcceptor<'a, R>
        ensures spools { result.spools.now ≡ spools.now }
        ensures entrance { result.entrance ≡ entrance.entry }
    {
        SocketAcceptor {
            alloc,
            rt,
            spools,
            entrance,
            sockets: None,
        }
    }

    /// Why it was broken off, if it was.
    pub fn fault(&self) -> Option<SocketFault> {
        match &self.sockets {
            Some(sockets) => sockets.fault,
            None => None,
        }
    }
}

impl<'a, R: Files + Net + Clock> Acceptor<SocketSource, SocketSink, FileSpool<'a, R>>
    for SocketAcceptor<'a, R> {
    ghost is_open = { λ acceptor. is_some acceptor.sockets };

    ghost is_cut = { λ acceptor. option_map_or (λ s. is_some s.fault) acceptor.sockets false };

    fn open(&mut self) -> bool {
        drop(self.sockets.take());
        let listened = Sockets::listen(self.alloc, self.rt, self.spools, self.entrance);
        drop(mem::replace(&mut self.sockets, listened.ok()));
        self.sockets.is_some()
    }

    fn was_cut(&self) -> bool {
        match &self.sockets {
            Some(sockets) => sockets.fault.is_some(),
            None => false,
        }
    }
}

impl<'a, R: Files + Net + Clock> Events<SocketSource, SocketSink, FileSpool<'a, R>>
    for SocketAcceptor<'a, R> {
    ghost use Rattle.std.specs.Prelude.{true};

    ghost is_over = { λ acceptor. option_map_or (λ s. s.has_ended) acceptor.sockets true };

    fn next(
        &mut self,
        vacancy: Option<usize>,
        is_busy: bool,
    ) -> Event<SocketSource, SocketSink, FileSpool<'a, R>> {
        let Some(sockets) = &mut self.sockets else {
            return Event::End;
        };
        sockets.next(vacancy, is_busy)
    }
}
