//! A hub that is served by an acceptor.
ghost use Rattle.std.specs.Prelude.{◌≡◌};
ghost use Rattle.dep_slot.specs.Causes.{causes_of};
ghost use Rattle.dep_sockets.specs.Acceptors.{ServesHub, acceptor_state};
ghost use Rattle.dep_sockets.specs.Outcomes.{outcome_at};

use crate::acceptor::Acceptor;
use dep_host::laws::hosts_make_a_run;
use dep_host::{Cause, Ended, Host, HostLog, Limits, MOST_READ, ReadBuffer, serve};
use dep_hub::laws::nothing_held;
use dep_hub::{Archive, Hub};
use dep_outbox::{Sink, Source, Spool};
use dep_program::Outcome;
use std::alloc::Global;

/// A log of a host that is told of its acceptor, too, and of its end.
pub trait AcceptorLog: HostLog {
    /// The acceptor was opened, or couldn't be.
    fn acceptor(&mut self, is_open: bool)
        ensures noted { Self.notes self.new ≡ Self.notes self.old };

    /// No more is served: why, or that there was no memory to begin.
    fn ended(&mut self, why: Option<Ended>)
        ensures noted { Self.notes self.new ≡ Self.notes self.old };
}

/// Makes a host over the hub, opens the acceptor, serves until no more come by it, and hands the store back. The log is told of
/// the acceptor once it is open, so that who reads it there can connect.
pub fn serve_hub<
    A: Archive,
    R: Source + Drop,
    K: Sink + Drop,
    P: Spool + Drop,
    E: Acceptor<R, K, P>,
    L: AcceptorLog,
>(alloc: Global, hub: Hub<A>, limits: Limits, acceptor: &mut E, log: &mut L) -> (Outcome, A)
    ensures ends { let at = acceptor_state E.given E.is_open E.is_over E.is_cut in
        ServesHub A.condition A.call_log R.unread K.taken P.held P.size
        (causes_of R.halts K.halts P.failures) L.notes (at acceptor.old) (at acceptor.new) log.old log.new
        limits hub result.1 result.0 }
{
    nothing_held::<A>();
    hosts_make_a_run::<A, R, K, P>();
    let mut host = match Host::new(alloc, hub, limits) {
        Ok(host) => host,
        Err(hub) => {
            log.ended(None);
            return (Outcome::StoreFault, hub.into_store());
        }
    };
    let Ok(mut buffer) = ReadBuffer::new(alloc, MOST_READ) else {
        log.ended(None);
        return (Outcome::StoreFault, host.into_hub().into_store());
    };
    let is_open = acceptor.open();
    log.acceptor(is_open);
    if !is_open {
        return (Outcome::TransferFault, host.into_hub().into_store());
    }
    let ended = serve(&mut host, acceptor, &mut buffer, log);
    log.ended(Some(ended));
    let outcome = outcome_at(ended, acceptor.was_cut());
    (outcome, host.into_hub().into_store())
}

/// How it ended where no more is served.
fn outcome_at(ended: Ended, is_cut: bool) -> Outcome
    ensures { result ≡ outcome_at ended is_cut }
{
    match ended {
        Ended::Events if !is_cut => Outcome::Done,
        Ended::Events | Ended::Spent => Outcome::TransferFault,
        Ended::Shut(Cause::Store) => Outcome::StoreFault,
        Ended::Shut(Cause::Stop) => Outcome::Done,
    }
}
