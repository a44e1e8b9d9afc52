//! The sockets of the system, of many connections at once, spools in files, and a hub that is served by an acceptor.
#![tactic(auto)]

mod acceptor;
mod file_spool;
mod hosting;
mod last_look;
mod readiness;
mod round_clock;
mod round_moment;
mod socket;
mod sockets;
mod spools;
mod stop_file;

pub use acceptor::{Acceptor, Entrance, SocketAcceptor};
pub use file_spool::FileSpool;
pub use hosting::{AcceptorLog, serve_hub};
pub use socket::{SocketSink, SocketSource};
pub use sockets::{SocketFault, Sockets};
pub use spools::Spools;
