//! Connections over sockets, one after another.
ghost use Rattle.dep_hub.specs.Representing.{ServesAs};
ghost use Rattle.dep_commands.specs.Serves.{ServesAtClock, ServesOne};

use dep_connection::{Served, serve_connection};
use dep_hub::{Archive, Hub};
use dep_moment::Moment;
use dep_program::{Gathered, Outcome};
use dep_types::ReaderInlet;
use std::alloc::Global;
use std::net::{TcpListener, TcpStream};

/// Serves so many connections that the listener accepts, one after another, each from its opening to its close.
/// A connection that fails doesn't end it. Where accepting fails, no further one is served.
pub fn serve_on<A: Archive, C: FnMut() -> Moment>(
    alloc: Global,
    listener: &TcpListener,
    count: u64,
    hub: &mut Hub<A>,
    mut clock: C,
) -> Outcome
    requires { C.IsAlwaysCallable clock }
    ensures goes { ServesAs A.condition hub.old hub.new }
    ensures serves { ServesAtClock A.condition C.step clock hub.old hub.new count result }
{
    for _ in 0..count {
        let Ok((stream, _)) = listener.accept() else {
            return Outcome::TransferFault;
        };
        serve_stream(alloc, &stream, hub, &mut clock);
    }
    Outcome::Done
}

/// Serves a connection over its socket.
fn serve_stream<A: Archive, C: FnMut() -> Moment>(
    alloc: Global,
    stream: &TcpStream,
    hub: &mut Hub<A>,
    clock: &mut C,
) -> Served
    requires { C.IsAlwaysCallable clock.old }
    ensures call { C.IsAlwaysCallable clock.new }
    ensures one { ServesOne A.condition A.may_commit C.step clock.old clock.new
        hub.old hub.new result }
{
    // Else a short content would wait until its client has acknowledged the head.
    let _ = stream.set_nodelay(true);
    let Ok(mut outlet) = Gathered::new(alloc, stream) else {
        return Served::Unserved;
    };
    let mut inlet = ReaderInlet::new(stream);
    serve_connection(alloc, &mut inlet, &mut outlet, hub, clock)
}
