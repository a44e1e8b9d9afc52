//! A store in a file, served at an address.
ghost use Rattle.std.specs.Prelude.{◌≡◌, false};
ghost use Rattle.sqlite.specs.Held.{state};
ghost use Rattle.dep_slot.specs.Causes.{causes_of};
ghost use Rattle.dep_sockets.specs.Acceptors.{acceptor_state};
ghost use Rattle.dep_application.specs.Hosted.{HostsDatabase, IsEntranceOf, AreOptionsOf, ServesReserved, host_limits};

use crate::host_log::StandardErrorLog;
use crate::logged_reserve::LoggedReserve;
use crate::reserved_hub::open_reserved_hub;
use crate::working::{DatabaseWork, work_on_file};
use dep_commands::{Reserve, ReservedArchive};
use dep_configuration::{Configuration, ServerLimits};
use dep_exchange::Archive;
use dep_host::HostLog;
use dep_hub::Hub;
use dep_outbox::{Sink, Source, Spool};
use dep_program::Outcome;
use dep_sockets::{
    Acceptor, Entrance, FileSpool, SocketAcceptor, SocketSink, SocketSource, Spools, serve_hub,
};
use dep_types::{Config, Text};
use sqlite::{Alter, Connection};
use std::alloc::{AllocError, Global};
use std::cell::Cell;
use std::fmt::Display;
use std::net::SocketAddr;
use std::process;
use std::time::Instant;

/// Where clients come from, and what bounds their connections.
#[derive(Drop)]
pub struct HostOptions {
    pub address: SocketAddr,
    pub spool_folder: Text,
    pub stop_file: Text,
    /// The file of the reserve, and how many bytes it has; 0 for none.
    pub reserve_file: Text,
    pub reserve_bytes: u64,
    pub limits: ServerLimits,
    /// When the opening of the database began.
    pub begun: Option<Instant>,
}

impl HostOptions {
    /// The place that is configured, with the path of the database and what else is configured.
    fn new(
        configuration: Configuration,
        reserve_file: Text,
        begun: Option<Instant>,
    ) -> (HostOptions, Text, Config)
        ensures place { AreOptionsOf configuration result.0 }
        ensures database { result.1 ≡ configuration.database }
        ensures config { result.2 ≡ configuration.config }
    {
        let Configuration {
            address,
            port,
            database,
            spool_folder,
            stop_file,
            config,
            limits,
            reserve_bytes,
        } = configuration;
        let place = HostOptions {
            address: SocketAddr::new(address, port),
            spool_folder,
            stop_file,
            reserve_file,
            reserve_bytes,
            limits,
            begun,
        };
        (place, database, config)
    }

    // Where its clients come in, and until when.
    fn entrance(&self) -> Entrance<'_>
        ensures { IsEntranceOf self.now result }
    {
        let stop_file = self.stop_file.as_str();
        Entrance {
            address: self.address,
            clients: self.limits.connections.unwrap_or(u64::MAX),
            stop_file: if stop_file.is_empty() {
                None
            } else {
                Some(stop_file)
            },
        }
    }
}

type HostAcceptor = SocketAcceptor<'static, HostRuntime>;

type HostSpool = FileSpool<'static, HostRuntime>;

/// What serves the store in a database.
#[derive(Drop)]
struct HostService<'a> {
    rt: &'a HostRuntime,
    place: &'a HostOptions,
    config: Config,
    /// How it ended, before the database is closed.
    ended: &'a Cell<Outcome>,
}

/// Serves the clients of a configuration from the store in its file, which is made where it isn't there, with a reserve
/// beside it. Then the log of the store is copied into its file. Unless all was done, a line on standard error says why.
pub fn serve_store(rt: &HostRuntime, configuration: Configuration) -> Outcome {
    let ended = Cell::new(Outcome::StoreFault);
    match serve_file(rt, configuration, &ended) {
        Some(Outcome::StoreFault) if matches!(ended.get(), Outcome::Done) => fails(rt, "closed"),
        Some(outcome) => outcome,
        None => fails(rt, "opened"),
    }
}

// Serves them, until the database is closed. Nothing is returned where it can't be opened.
fn serve_file(
    rt: &HostRuntime,
    configuration: Configuration,
    ended: &Cell<Outcome>,
) -> Option<Outcome> {
    let Ok(reserve_file) = reserve_beside(rt.alloc(), configuration.database.as_str()) else {
        drop(configuration);
        return None;
    };
    let begun = Instant::now(rt).ok();
    let (place, database, config) = HostOptions::new(configuration, reserve_file, begun);
    let service = HostService {
        rt,
        place: &place,
        config,
        ended,
    };
    work_on_file(rt, database.as_str(), service)
}

// The path of the reserve of the database in this file.
fn reserve_beside(alloc: Global, database: &str) -> Result<Text, AllocError> {
    let path = format!(in alloc; "{database}-reserve")?;
    Ok(Text::new(path))
}

// What can't be done with the database is printed.
fn fails(rt: &HostRuntime, what: &str) -> Outcome {
    let _ = eprintln!(rt; "swordd_host: the database can't be {what}");
    Outcome::StoreFault
}

impl DatabaseWork for HostService<'_> {
    ghost use Rattle.dep_slot.specs.Causes.{causes_of};
    ghost use Rattle.dep_sockets.specs.Acceptors.{acceptor_state};
    ghost use Rattle.dep_application.specs.Hosted.{ServesPlace};

    ghost does = { λ it S g given back.
        let acceptor = ⟦<HostAcceptor as Acceptor<SocketSource, SocketSink, HostSpool>>⟧ in
        let spool = ⟦<HostSpool as Spool>⟧ in
        let source = ⟦<SocketSource as Source>⟧ in
        let sink = ⟦<SocketSink as Sink>⟧ in
        ServesPlace g source.unread sink.taken spool.held spool.size
        (causes_of source.halts sink.halts spool.failures)
        (acceptor_state acceptor.given acceptor.is_open acceptor.is_over acceptor.is_cut)
        (λ d. d.entrance) (λ d. d.spools.now.folder.now) (λ d. d.spools.now.most)
        it.place.now it.config given back };

    // Makes the spools and the acceptor of the place, and serves whoever comes by it. Prints why that was broken off.
    fn work<S: Alter>(self, connection: Connection<S>) -> (Outcome, Connection<S>) {
        let HostService {
            rt,
            place,
            config,
            ended,
        } = self;
        let alloc = rt.alloc();
        let process = process::id(rt.process());
        let most = place.limits.spool_bytes;
        let spools = Spools::new(alloc, rt, place.spool_folder.as_str(), process, most);
        let mut acceptor = SocketAcceptor::new(alloc, rt, &spools, place.entrance());
        let (outcome, connection) = host_database(rt, place, config, connection, &mut acceptor);
        report_broken(rt, &acceptor);
        ended.set(outcome);
        (outcome, connection)
    }
}

// Prints why serving was broken off, if it was.
fn report_broken(rt: &HostRuntime, acceptor: &SocketAcceptor<'_, HostRuntime>) {
    if let Some(fault) = acceptor.fault() {
        report(rt, &fault);
    }
}

fn report<F: Display>(rt: &HostRuntime, fault: &F) {
    let _ = eprintln!(rt; "swordd_host: {fault}");
}

/// Opens a hub with the place's reserve over the database, and hands that back once no more come by the acceptor.
fn host_database<S: Alter, R: Source + Drop, K: Sink + Drop, P: Spool + Drop, E: Acceptor<R, K, P>>(
    rt: &HostRuntime,
    place: &HostOptions,
    config: Config,
    connection: Connection<S>,
    acceptor: &mut E,
) -> (Outcome, Connection<S>)
    requires settled { (state S.Store connection).in_transaction ≡ false }
    ensures hosts { let at = acceptor_state E.given E.is_open E.is_over E.is_cut in
        HostsDatabase S.Store R.unread K.taken P.held P.size
        (causes_of R.halts K.halts P.failures) (at acceptor.old) (at acceptor.new) place.now.limits config
        connection result.1 result.0 }
{
    let reserve = LoggedReserve::of(rt, place);
    match open_reserved_hub(rt.alloc(), config, connection, reserve) {
        Ok(hub) => {
            let (outcome, archive) = serve_reserved(rt, place, hub, acceptor);
            (outcome, archive.close())
        }
        Err((fault, connection)) => {
            report(rt, &fault);
            (fault.outcome(), connection)
        }
    }
}

// The archive is any one here, since each call over a database is dear to prove.
/// Serves a hub with a reserve until no more come by the acceptor, and hands its archive back.
fn serve_reserved<
    A: Archive,
    Q: Reserve + Drop,
    R: Source + Drop,
    K: Sink + Drop,
    P: Spool + Drop,
    E: Acceptor<R, K, P>,
>(
    rt: &HostRuntime,
    place: &HostOptions,
    hub: Hub<ReservedArchive<A, Q>>,
    acceptor: &mut E,
) -> (Outcome, A)
    ensures { let at = acceptor_state E.given E.is_open E.is_over E.is_cut in
        ServesReserved A.condition A.call_log R.unread K.taken P.held P.size
        (causes_of R.halts K.halts P.failures) (at acceptor.old) (at acceptor.new) (host_limits place.now.limits)
        hub result.1 result.0 }
{
    let mut log = StandardErrorLog::new(rt, place);
    let (outcome, archive) = serve_hub(
        rt.alloc(),
        hub,
        host_limits(&place.limits),
        acceptor,
        &mut log,
    );
    log.rest();
    (outcome, archive.into_archive())
}

fn host_limits(limits: &ServerLimits) -> dep_host::Limits
    ensures { result ≡ host_limits limits.now }
{
    dep_host::Limits {
        idle_seconds: limits.idle_seconds,
        least_rate: limits.least_rate,
        address_connections: limits.address_connections as usize,
        unfinished_bytes: limits.unfinished_bytes,
    }
}
