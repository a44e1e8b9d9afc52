//! The log of a host: lines of JSON on standard error.

use crate::held_lines::HeldLines;
use crate::hosting::HostOptions;
use crate::start::write_start;
use dep_configuration::{
    ClosedConnection, GREATEST_PATH, LoggedExchange, Reason, closing_line, exchange_line,
};
use dep_host::{Bytes, Cause, Closing, Ended, HostLog, Rejection};
use dep_hub::{AccessLog, ConnId, Next, SentOn};
use dep_program::{microseconds_since, moment_of};
use dep_sockets::AcceptorLog;
use dep_types::Refusal;
use std::alloc::Global;
use std::mem;
use std::net::IpAddr;
use std::time::{Instant, SystemTime};

/// How many bytes of a method stand in the log at most.
const MOST_METHOD: usize = 32;

/// The log of a host on standard error. A line that can't be written is left out.
#[derive(Drop)]
pub struct StandardErrorLog<'a> {
    rt: &'a HostRuntime,
    place: &'a HostOptions,
    lines: HeldLines<'a>,
    /// The time that opening the database took.
    open_microseconds: u64,
    /// The room of the item that is answered next.
    item: LoggedItem,
    /// Items that were answered, behind whose replies contents are still to be sent.
    begun: Vec<LoggedItem>,
}

/// What is known of an item that is answered.
#[derive(Drop)]
pub struct LoggedItem {
    connection: u64,
    address: Option<IpAddr>,
    method: String,
    path: String,
    /// The status of its reply, once there is one.
    status: Option<u16>,
    /// Why it is refused, if it is.
    refusal: Option<Refusal>,
    begun: Option<Instant>,
    /// How many bytes were read for it, once it is answered.
    received: u64,
}

impl<'a> StandardErrorLog<'a> {
    /// A log that has no item under way, of a server at the place, whose database has just been opened.
    pub fn new(rt: &'a HostRuntime, place: &'a HostOptions) -> StandardErrorLog<'a> {
        StandardErrorLog {
            rt,
            place,
            lines: HeldLines::new(rt),
            open_microseconds: microseconds_since(rt, place.begun),
            item: LoggedItem::new(rt.alloc()),
            begun: Vec::new(rt.alloc()),
        }
    }

    // The whole seconds since 1970.
    fn moment(&self) -> u64 {
        moment_of(SystemTime::now(self.rt)).secs()
    }

    fn write_closing(&mut self, connection: Option<u64>, address: IpAddr, reason: Reason) {
        let Ok(peer) = format!(in self.rt.alloc(); "{address}") else {
            return;
        };
        let moment = self.moment();
        let closed = ClosedConnection {
            moment,
            connection,
            peer: peer.as_str(),
            reason,
        };
        if let Ok(line) = closing_line(self.rt.alloc(), &closed) {
            self.lines.push(moment, line.as_slice());
        }
    }

    // The line of an item that was answered.
    fn write_exchange(&mut self, item: &LoggedItem, address: IpAddr, status: u16, bytes: Bytes) {
        let Ok(peer) = format!(in self.rt.alloc(); "{address}") else {
            return;
        };
        let moment = self.moment();
        let exchange = LoggedExchange {
            moment,
            connection: item.connection,
            peer: peer.as_str(),
            method: item.method.as_str(),
            path: item.path.as_str(),
            status,
            refusal: item.refusal,
            bytes_in: bytes.received,
            bytes_out: bytes.sent,
            microseconds: microseconds_since(self.rt, item.begun),
        };
        if let Ok(line) = exchange_line(self.rt.alloc(), &exchange) {
            self.lines.push(moment, line.as_slice());
        }
    }
}

impl LoggedItem {
    // An item of which nothing is known.
    fn new(alloc: Global) -> LoggedItem {
        LoggedItem {
            connection: 0,
            address: None,
            method: String::new(alloc),
            path: String::new(alloc),
            status: None,
            refusal: None,
            begun: None,
            received: 0,
        }
    }
}

impl AccessLog for LoggedItem {
    fn request(&mut self, method: &[u8], path: &str, _length: u64) {
        let front = method.get(..MOST_METHOD).unwrap_or(method);
        let _ = self.method.push_str(str::from_utf8(front).unwrap_or(""));
        let end = path.floor_char_boundary(GREATEST_PATH);
        let _ = self.path.push_str(&path[..end]);
    }

    fn reply(&mut self, status: u16, refusal: Option<Refusal>) {
        self.status = Some(status);
        self.refusal = refusal;
    }
}

impl HostLog for StandardErrorLog<'_> {
    type Item = LoggedItem;

    fn opened(&mut self, _connection: ConnId, _address: IpAddr) {}

    fn refused(&mut self, address: IpAddr, refusal: Rejection) {
        let reason = match refusal {
            Rejection::Address => Reason::AddressLimit,
            Rejection::Full => Reason::Full,
            Rejection::Memory => Reason::Memory,
            Rejection::Shut => Reason::StoreShut,
            Rejection::Stopped => Reason::Stopping,
        };
        self.write_closing(None, address, reason);
    }

    fn answering(&mut self, connection: ConnId, address: IpAddr) -> LoggedItem {
        let mut item = mem::replace(&mut self.item, LoggedItem::new(self.rt.alloc()));
        item.connection = connection.number();
        item.address = Some(address);
        item.method.clear();
        item.path.clear();
        item.status = None;
        item.refusal = None;
        item.begun = Instant::now(self.rt).ok();
        item
    }

    fn kept_back(&mut self, item: LoggedItem) {
        self.item = item;
    }

    // A `100 Continue` has no line.
    fn answered(&mut self, item: LoggedItem, next: Next, bytes: Bytes) {
        if let Some(address) = item.address {
            if let Some(status) = item.status {
                self.write_exchange(&item, address, status, bytes);
            }
            if next == Next::Cut {
                self.write_closing(Some(item.connection), address, Reason::ReplyCut);
            }
        }
        self.item = item;
    }

    // The line of a reply with a content is written once no more of that is sent, or at once where there is no
    // memory to keep it so long.
    fn begun(&mut self, mut item: LoggedItem, bytes: Bytes) {
        item.received = bytes.received;
        if let Err(refused) = self.begun.push(item) {
            self.answered(refused.value, Next::More, bytes);
        }
    }

    // Where a client ends its connection before all is sent, the line of the reply tells how much was.
    fn sent(&mut self, connection: ConnId, address: IpAddr, sent_on: SentOn, bytes: u64) {
        let number = connection.number();
        if let Some(at) = self.begun.iter().position(|item| item.connection == number) {
            let item = self.begun.swap_remove(at);
            let bytes = Bytes {
                received: item.received,
                sent: bytes,
            };
            self.answered(item, Next::More, bytes);
        }
        if sent_on == SentOn::Broken {
            self.write_closing(Some(number), address, Reason::ReplyCut);
        }
    }

    // A client that ends its connection has no line.
    fn closed(&mut self, connection: ConnId, address: IpAddr, closing: Closing, _bytes: Bytes) {
        let reason = match closing {
            Closing::Over => return,
            Closing::Silent => Reason::Idle,
            Closing::Slow => Reason::Slow,
            Closing::Large => Reason::UnfinishedLimit,
        };
        self.write_closing(Some(connection.number()), address, reason);
    }

    fn rest(&mut self) {
        self.lines.write();
    }
}

impl AcceptorLog for StandardErrorLog<'_> {
    fn acceptor(&mut self, is_open: bool) {
        let address = self.place.address;
        if is_open {
            write_start(self.rt, address, self.place.limits, self.open_microseconds);
        } else {
            let _ = eprintln!(self.rt; "swordd_host: it can't listen at {address}");
        }
    }

    // Where no more comes, no line: how that came the acceptor reports.
    fn ended(&mut self, why: Option<Ended>) {
        let line = match why {
            Some(Ended::Events) => return,
            Some(Ended::Shut(Cause::Stop)) => "it was told to stop",
            Some(Ended::Shut(Cause::Store)) => "a fault of the disk has shut the store",
            Some(Ended::Spent) => "more came than it can count",
            None => "there is no memory to begin",
        };
        self.lines.write();
        let _ = eprintln!(self.rt; "swordd_host: {line}");
    }
}
