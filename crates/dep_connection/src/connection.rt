//! One connection over an inlet and an outlet.
ghost use Rattle.std.specs.Prelude.{◌≡◌, ◌<◌, IsSome, length};
ghost use Rattle.dep_hub.specs.Representing.{intake_of, ServesAs};
ghost use Rattle.dep_hub.specs.Numbers.{most_read};
ghost use Rattle.dep_connection.specs.Conversation.{standing, MayShow, ConversesOver, CanGoOn, TalksUntil, TurnsTo, next_after};
ghost use Rattle.dep_connection.specs.Flushing.{IsFlushed};

use crate::flush::{Flush, FlushFailed};
use dep_hub::{Archive, Arrived, ConnId, Hub};
use dep_moment::Moment;
use dep_types::{Inlet, ReadFailed};
use std::alloc::Global;

/// Why a connection was served no longer.
#[derive(Clone, Copy)]
pub enum Served {
    /// The last read gave nothing.
    Ended,
    /// The connection was closed after a reply.
    Closed,
    /// It could not be opened.
    Unserved,
    /// The last read failed.
    ReadFault,
    /// The outlet failed: a reply was cut, or what was held back was not sent.
    WriteFault,
    /// It came to the greatest number of reads.
    Bound,
}

const MOST_READS: u32 = 1_048_576;

const MOST_READ: usize = 65_536;

/// The connection that is served, and room for one piece of its stream.
#[derive(Drop)]
struct Incoming {
    connection: ConnId,
    buffer: Vec<u8>,
    ghost room: { length buffer.items ≡ most_read },
}

/// Serves one fresh connection, from its opening to its close. It makes at most 1,048,576 reads, of at most
/// 65,536 bytes each, and asks the clock once for each piece. Behind each piece the outlet is flushed: where
/// that fails the connection ends with `WriteFault`, before anything is read again. Behind a piece with which
/// it doesn't end, the store works ahead once.
pub fn serve_connection<A: Archive, R: Inlet, W: Flush, C: FnMut() -> Moment>(
    alloc: Global,
    reader: &mut R,
    writer: &mut W,
    hub: &mut Hub<A>,
    clock: &mut C,
) -> Served
    requires { C.IsAlwaysCallable clock.old }
    ensures call { C.IsAlwaysCallable clock.new }
    ensures goes { ServesAs A.condition hub.old hub.new }
    ensures converses { ConversesOver A.condition A.may_commit (MayShow W.Outlet W.held W.has_failed) C.step
        (standing R.Inlet W.Outlet W.held W.has_failed hub.old reader.old writer.old clock.old)
        (standing R.Inlet W.Outlet W.held W.has_failed hub.new reader.new writer.new clock.new)
        result }
    ensures next { hub.new.next ≡ next_after hub.old.next result }
    // All was sent, or the outlet has given up.
    ensures flushed { IsFlushed (W.held writer.old) (W.has_failed writer.old)
        → IsFlushed (W.held writer.new) (W.has_failed writer.new) }
{
    let Ok(buffer) = vec![in alloc; 0u8; MOST_READ] else {
        return Served::Unserved;
    };
    let Ok(connection) = hub.connect() else {
        return Served::Unserved;
    };
    let mut incoming = Incoming { connection, buffer };
    let served = converse(reader, writer, hub, clock, &mut incoming);
    hub.close(connection);
    served
}

/// Serves a connection until it ends.
fn converse<A: Archive, R: Inlet, W: Flush, C: FnMut() -> Moment>(
    reader: &mut R,
    writer: &mut W,
    hub: &mut Hub<A>,
    clock: &mut C,
    incoming: &mut Incoming,
) -> Served
    requires { CanGoOn C.IsAlwaysCallable incoming.old.connection hub.old clock.old }
    ensures flushed { IsFlushed (W.held writer.old) (W.has_failed writer.old)
        → IsFlushed (W.held writer.new) (W.has_failed writer.new) }
    ensures talks { TalksUntil A.condition A.may_commit (MayShow W.Outlet W.held W.has_failed) C.step
        incoming.old.connection
        (standing R.Inlet W.Outlet W.held W.has_failed hub.old reader.old writer.old clock.old)
        (standing R.Inlet W.Outlet W.held W.has_failed hub.new reader.new writer.new clock.new)
        result }
{
    for count in 0..MOST_READS {
        if let Some(end) = turn(reader, writer, hub, clock, incoming) {
            return end;
        }
    }
    Served::Bound
}

/// Reads a piece, has it served, and flushes the outlet. Where the connection goes on the store works ahead
/// once.
fn turn<A: Archive, R: Inlet, W: Flush, C: FnMut() -> Moment>(
    reader: &mut R,
    writer: &mut W,
    hub: &mut Hub<A>,
    clock: &mut C,
    incoming: &mut Incoming,
) -> Option<Served>
    requires { CanGoOn C.IsAlwaysCallable incoming.old.connection hub.old clock.old }
    ensures there { IsSome (intake_of hub.new.connections.items incoming.old.connection) }
    ensures same { incoming.new.connection ≡ incoming.old.connection }
    ensures turn { TurnsTo A.condition A.may_commit (MayShow W.Outlet W.held W.has_failed) C.step
        incoming.old.connection
        (standing R.Inlet W.Outlet W.held W.has_failed hub.old reader.old writer.old clock.old)
        (standing R.Inlet W.Outlet W.held W.has_failed hub.new reader.new writer.new clock.new)
        result }
    ensures flushed { IsFlushed (W.held writer.old) (W.has_failed writer.old)
        → IsFlushed (W.held writer.new) (W.has_failed writer.new) }
{
    match reader.read(incoming.buffer.as_mut_slice()) {
        Err(ReadFailed) => Some(Served::ReadFault),
        Ok(0) => Some(Served::Ended),
        Ok(n) => {
            let moment = clock();
            let arrived = hub.arrive(incoming.connection, &incoming.buffer[..n], moment, writer);
            if let Err(FlushFailed) = writer.flush() {
                return Some(Served::WriteFault);
            }
            match arrived {
                Arrived::Open => {
                    let _left = hub.work_ahead();
                    None
                }
                Arrived::Closed => Some(Served::Closed),
                Arrived::Cut => Some(Served::WriteFault),
                Arrived::NoSuch => unreachable!(),
            }
        }
    }
}
