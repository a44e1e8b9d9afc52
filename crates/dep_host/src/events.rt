//! What comes to a host from outside.
ghost use Rattle.std.specs.Prelude.{◌≡◌, IsTrue, Bool, List, [], ◌∷◌, Option, None};
ghost use Rattle.dep_host.specs.Coming.{IsFresh, origin, comes_from};
ghost use Rattle.dep_host.specs.Meeting.{rejection_for};
ghost use Rattle.dep_slot.specs.Notes.{Rejected, GrowsWhereShown};

use dep_hub::ConnectFault;
use dep_outbox::{Sink, Source, Spool};
use dep_slot::{Client, HostLog, Rejection, Slot, Time};
use std::net::IpAddr;

/// A number for those addresses that one client may have: an IPv4 address, or all IPv6 addresses of
/// the same first 64 bits.
pub fn origin(address: IpAddr) -> u128
    ensures { result ≡ origin address }
{
    match address {
        IpAddr::V4(ip) => ip.to_bits() as u128,
        IpAddr::V6(ip) => ip.to_bits() / MOST_HOSTS + FIRST_NETWORK,
    }
}

/// How many IPv6 addresses have the same first 64 bits.
const MOST_HOSTS: u128 = 0x1_0000_0000_0000_0000;

/// The number of the first of these networks, behind all IPv4 addresses.
const FIRST_NETWORK: u128 = 0x1_0000_0000;

/// Whether who is at a place comes from there.
pub(crate) fn comes_from<R: Source, K: Sink, S: Spool>(
    place: &Option<Slot<R, K, S>>,
    from: u128,
) -> bool
    ensures { result ≡ comes_from from place.now }
{
    match place {
        Some(slot) => origin(slot.address()) == from,
        None => false,
    }
}

/// Why a client is rejected for whom the hub opens no connection.
pub(crate) fn rejection_for(fault: ConnectFault) -> Rejection
    ensures { result ≡ rejection_for fault }
{
    match fault {
        ConnectFault::Full => Rejection::Full,
        ConnectFault::Memory => Rejection::Memory,
    }
}

/// Cuts a client off.
pub(crate) fn reject<R: Drop, K: Drop, S: Drop, L: HostLog>(
    client: Client<R, K, S>,
    refusal: Rejection,
    log: &mut L,
) -> Rejection
    ensures same { result ≡ refusal }
    ensures noted { GrowsWhereShown (L.notes log.old) (L.notes log.new)
        (Rejected client.address refusal ∷ []) }
{
    log.refused(client.address, refusal);
    drop(client);
    refusal
}

/// What comes to a host.
#[derive(Drop)]
pub enum Event<R, K, S> {
    /// The socket of the connection at a place may be ready. Where nobody is there nothing happens.
    Ready {
        at: usize,
        is_readable: bool,
        is_writable: bool,
    },
    /// A client connects. It is at the place that was offered, and is rejected where none was.
    Client(Client<R, K, S>),
    /// Each socket that was ready was among the events before it: each connection has its turn.
    Round(Time),
    /// The host is told at a second to stop: from then on it is shut.
    Stop(u64),
    /// No more is served.
    End,
}

/// What gives a host its events. Before each `Round` it has given one for each socket that it knows to be
/// ready: only then are connections judged that were silent for too long.
pub trait Events<R: Source, K: Sink, S: Spool> {
    ghost use Rattle.dep_host.specs.Coming.{PollCall};

    /// Whether no more comes.
    ghost is_over: { Self → Bool };

    /// What came so far, each with the place that was given for it, where it shows that.
    ghost given: { Self → Option (List (PollCall R K S)) } = { λ _. None };

    /// The next event. A client comes to the place, where one is given, and none where it isn't, so
    /// that further ones wait in the queue of the system. It waits for something to come only where
    /// the host can't go on at once, and not for long, since a `Round` closes who is silent.
    fn next(&mut self, vacancy: Option<usize>, is_busy: bool) -> Event<R, K, S>
        ensures fresh { IsFresh K.taken S.held result }
        ensures given { GrowsWhereShown (given self.old) (given self.new)
            (record { offer = vacancy; is_busy = is_busy; event = result } ∷ []) }
        ensures end { result ≡ Event.End → IsTrue (is_over self.new) };
}
