//! The lines of the access log: each is an object of JSON (RFC 8259) and a newline.
ghost use Rattle.std.specs.Prelude.{◌≡◌};
ghost use Rattle.dep_configuration.specs.AccessLog.{reason_name, reserve_state_name};

use crate::configuration::ServerLimits;
use dep_types::Refusal;
use json::Writer;
use std::alloc::{AllocError, Global};

/// The bytes of a path that the log has at most; of a longer one it has a front.
pub const GREATEST_PATH: usize = 1_024;

/// A request and its reply.
#[derive(Clone, Copy)]
pub struct LoggedExchange<'a> {
    /// The whole seconds since 1970.
    pub moment: u64,
    /// The number of the connection.
    pub connection: u64,
    /// The client's address.
    pub peer: &'a str,
    /// The method of the request.
    pub method: &'a str,
    /// The path of the request.
    pub path: &'a str,
    /// The status of the reply.
    pub status: u16,
    /// Why the request was refused, if it was.
    pub refusal: Option<Refusal>,
    /// The bytes that the request took.
    pub bytes_in: u64,
    /// The bytes that the reply took.
    pub bytes_out: u64,
    /// How long answering took, in microseconds.
    pub microseconds: u64,
}

/// Why a connection was closed before its client ended it, or a client was rejected.
#[derive(Clone, Copy)]
pub enum Reason {
    /// It was silent for the idle time.
    Idle,
    /// It moved fewer bytes than the least rate.
    Slow,
    /// Its address had as many connections as it may have.
    AddressLimit,
    /// Requests that aren't whole had as many bytes as they may have.
    UnfinishedLimit,
    /// Its reply was cut: there was no more room in the spools, or its content could not be read.
    ReplyCut,
    /// A fault of the disk has shut the store.
    StoreShut,
    /// The server was told to stop.
    Stopping,
    /// No further connection can be opened.
    Full,
    /// There was no memory.
    Memory,
}

impl Reason {
    /// The reason as it stands in the log.
    pub fn name(self) -> &'static str
        ensures { result.now ≡ reason_name self }
    {
        match self {
            Reason::Idle => "idle",
            Reason::Slow => "slow",
            Reason::AddressLimit => "address_limit",
            Reason::UnfinishedLimit => "unfinished_limit",
            Reason::ReplyCut => "reply_cut",
            Reason::StoreShut => "store_shut",
            Reason::Stopping => "stopping",
            Reason::Full => "full",
            Reason::Memory => "memory",
        }
    }
}

/// A connection that the server closed, or a client that it rejected.
#[derive(Clone, Copy)]
pub struct ClosedConnection<'a> {
    /// The whole seconds since 1970.
    pub moment: u64,
    /// The number of the connection; a client that was rejected has none.
    pub connection: Option<u64>,
    /// The client's address.
    pub peer: &'a str,
    pub reason: Reason,
}

/// What became of the file that is kept beside the database for a full disk.
#[derive(Clone, Copy)]
pub enum ReserveState {
    /// It was given up, since something could not be written: until it stands again, what has a content is answered by 500.
    GivenUp,
    /// It stands again.
    Standing,
    /// It could not be written at the start of the server, which goes on as if it was given up.
    NotWritten,
}

impl ReserveState {
    /// The state as it stands in the log.
    pub fn name(self) -> &'static str
        ensures { result.now ≡ reserve_state_name self }
    {
        match self {
            ReserveState::GivenUp => "given_up",
            ReserveState::Standing => "standing",
            ReserveState::NotWritten => "not_written",
        }
    }
}

/// The start of a server.
#[derive(Clone, Copy)]
pub struct Start<'a> {
    /// The whole seconds since 1970.
    pub moment: u64,
    /// The version of the server.
    pub version: &'a str,
    /// The address and port that it listens at.
    pub address: &'a str,
    /// What bounds its connections.
    pub limits: ServerLimits,
    /// The time that opening the database took.
    pub open_microseconds: u64,
}

/// Returns the line of a request that was answered. An `Err` means out of memory.
pub fn exchange_line(alloc: Global, exchange: &LoggedExchange<'_>) -> Result<Vec<u8>, AllocError> {
    let end = exchange.path.floor_char_boundary(GREATEST_PATH);
    let refusal = match exchange.refusal {
        Some(refusal) => Member::Text("refusal", refusal.name()),
        None => Member::LeftOut,
    };
    line(
        alloc,
        &[
            Member::Text("event", "exchange"),
            Member::Number("moment", exchange.moment),
            Member::Number("connection", exchange.connection),
            Member::Text("peer", exchange.peer),
            Member::Text("method", exchange.method),
            Member::Text("path", &exchange.path[..end]),
            Member::Number("status", u64::from(exchange.status)),
            refusal,
            Member::Number("bytes_in", exchange.bytes_in),
            Member::Number("bytes_out", exchange.bytes_out),
            Member::Number("microseconds", exchange.microseconds),
        ],
    )
}

/// Returns the line of a connection that the server closed, or of a client that it rejected. An `Err` means out of
/// memory.
pub fn closing_line(alloc: Global, closing: &ClosedConnection<'_>) -> Result<Vec<u8>, AllocError> {
    let (event, connection) = match closing.connection {
        Some(connection) => ("closed", Member::Number("connection", connection)),
        None => ("refused", Member::LeftOut),
    };
    line(
        alloc,
        &[
            Member::Text("event", event),
            Member::Number("moment", closing.moment),
            connection,
            Member::Text("peer", closing.peer),
            Member::Text("reason", closing.reason.name()),
        ],
    )
}

/// Returns the line of a reserve that came into this state, at a moment in whole seconds since 1970. An `Err` means out
/// of memory.
pub fn reserve_line(
    alloc: Global,
    moment: u64,
    state: ReserveState,
) -> Result<Vec<u8>, AllocError> {
    line(
        alloc,
        &[
            Member::Text("event", "reserve"),
            Member::Number("moment", moment),
            Member::Text("state", state.name()),
        ],
    )
}

/// Returns the line of a server that starts. An `Err` means out of memory.
pub fn start_line(alloc: Global, start: &Start<'_>) -> Result<Vec<u8>, AllocError> {
    let limits = &start.limits;
    let connections = match limits.connections {
        Some(connections) => Member::Number("connections", connections),
        None => Member::LeftOut,
    };
    line(
        alloc,
        &[
            Member::Text("event", "started"),
            Member::Number("moment", start.moment),
            Member::Text("version", start.version),
            Member::Text("address", start.address),
            Member::Number("idle_seconds", limits.idle_seconds),
            Member::Number("least_rate", limits.least_rate),
            connections,
            Member::Number("address_connections", limits.address_connections),
            Member::Number("spool_bytes", limits.spool_bytes),
            Member::Number("unfinished_bytes", limits.unfinished_bytes),
            Member::Number("open_microseconds", start.open_microseconds),
        ],
    )
}

/// A member of a line: its name and its value.
#[derive(Clone, Copy)]
enum Member<'a> {
    Text(&'static str, &'a str),
    Number(&'static str, u64),
    /// The member is left out.
    LeftOut,
}

// The line of these members.
fn line(alloc: Global, members: &[Member<'_>]) -> Result<Vec<u8>, AllocError> {
    let mut out = Writer::new(Vec::with_capacity(alloc, 512)?);
    put_object(&mut out, members)?;
    let mut line = out.into_inner();
    line.push(b'\n')?;
    Ok(line)
}

fn put_object(out: &mut Writer, members: &[Member<'_>]) -> Result<(), AllocError> {
    out.begin_object()?;
    for member in members {
        put_member(out, *member)?;
    }
    out.end_object()
}

fn put_member(out: &mut Writer, member: Member<'_>) -> Result<(), AllocError> {
    match member {
        Member::Text(name, text) => {
            out.key(name)?;
            out.string(text)
        }
        Member::Number(name, number) => {
            out.key(name)?;
            out.u64(number)
        }
        Member::LeftOut => Ok(()),
    }
}
