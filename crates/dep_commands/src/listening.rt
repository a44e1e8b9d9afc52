//! A port of 127.0.0.1.
ghost use Rattle.std.specs.Prelude.{◌≡◌};
ghost use Rattle.dep_hub.specs.Representing.{IsClean, IsHonest};
ghost use Rattle.dep_commands.specs.Addresses.{IsLocal};
ghost use Rattle.dep_commands.specs.Serves.{ServesAt};

use crate::serve::serve_on;
use dep_hub::{Archive, Hub};
use dep_program::{ListenOptions, Outcome, moment_of};
use std::alloc::Global;
use std::net::{IpAddr, Ipv4Addr, Net, SocketAddr, TcpListener, TcpStream};
use std::time::{Clock, SystemTime};

/// The address of a port of 127.0.0.1.
pub fn address(port: u16) -> SocketAddr
    ensures { IsLocal result port }
{
    SocketAddr::new(IpAddr::V4(Ipv4Addr::LOCALHOST), port)
}

/// Listens at the port, and serves so many connections over the hub, one after another, each piece at the machine's
/// clock. It is a fault of the transfer where the port can't be had, or accepting fails.
pub fn serve_at<R: Net<Listener = TcpListener, Stream = TcpStream> + Clock, A: Archive>(
    rt: &R,
    alloc: Global,
    options: ListenOptions,
    hub: &mut Hub<A>,
) -> Outcome
    ensures config { hub.new.config ≡ hub.old.config }
    ensures serves { ServesAt A.condition hub.old hub.new options.count result }
    ensures clean { IsClean A.condition hub.new → IsClean A.condition hub.old }
    ensures honest { IsHonest A.condition hub.new → IsHonest A.condition hub.old }
{
    match TcpListener::bind(rt, address(options.port)) {
        Ok(listener) => serve_on(alloc, &listener, options.count, hub, || {
            moment_of(SystemTime::now(rt))
        }),
        Err(_) => Outcome::TransferFault,
    }
}
