//! Serving all clients until no more comes.
ghost use Rattle.std.specs.Prelude.{◌≡◌, ◌≢◌, ℕ, List, [], ◌∷◌, Err, IfOk, IsNone, IsTrue, false};
ghost use Rattle.std.specs.List.{AllByRecursion};
ghost use Rattle.dep_host.specs.Coming.{IsFresh, seconds_of};
ghost use Rattle.dep_slot.specs.Causes.{causes_of};
ghost use Rattle.dep_host.specs.Rounds.{is_overdue};
ghost use Rattle.dep_host.specs.Actions.{HostAction, position};
ghost use Rattle.dep_host.specs.Hosting.{LeadsTo};
ghost use Rattle.dep_host.specs.Meeting.{AsksOn, IsIdle, IsMet, IsOffer, MayEnd, Meets, Met, most_events};
ghost use Rattle.dep_host.specs.Runs.{Promises};

use crate::ending::Cause;
use crate::events::{Event, Events};
use crate::host::Host;
use crate::laws::hosts_keep_the_archive_promise;
use dep_hub::Archive;
use dep_outbox::{Sink, Source, Spool};
use dep_slot::{Client, HostLog, ReadBuffer};

/// Why no more is served.
#[derive(Clone, Copy)]
pub enum Ended {
    /// No more comes.
    Events,
    /// It was shut, for this cause. All was sent, or an idle time has passed since.
    Shut(Cause),
    /// 2^64 - 1 events came.
    Spent,
}

/// What the next event is asked for with: the place to offer, and whether the host can go on at once.
#[derive(Clone, Copy)]
struct Now {
    vacancy: Option<usize>,
    is_busy: bool,
}

/// Serves all clients until no more comes. It returns with the connections that are open then, which
/// are cut off once the host is let go.
pub fn serve<
    A: Archive,
    R: Source + Drop,
    K: Sink + Drop,
    S: Spool + Drop,
    E: Events<R, K, S>,
    L: HostLog,
>(host: &mut Host<A, R, K, S>, events: &mut E, buffer: &mut ReadBuffer, log: &mut L) -> Ended
    // What came, and what was made of each.
    ensures met { (actions : List HostAction) × Met A.condition A.call_log R.unread K.taken S.held S.size
        (causes_of R.halts K.halts S.failures) L.notes (E.given events.old) (E.given events.new)
        host.old host.new log.old log.new actions most_events result }
    ensures goes { LeadsTo A.condition R.unread K.taken S.held (position host.old)
        (position host.new) }
    // The archive promise, for all connections.
    ensures promise { Promises A.condition R.unread K.taken S.held (position host.old)
        (position host.new) }
    ensures end { result ≡ Ended.Events → IsTrue (E.is_over events.new) }
    ensures shut { result ≡ Ended.Shut Cause.Store → IsNone host.old.shut
        → ¬ IsTrue (A.condition host.new.hub.store).is_open }
{
    hosts_keep_the_archive_promise::<A, R, K, S>();
    let mut now = Now {
        vacancy: host.vacancy(),
        is_busy: true,
    };
    for count in 0..u64::MAX {
        let event = events.next(now.vacancy, now.is_busy);
        match meet(host, now, event, buffer, log) {
            Ok(next) => now = next,
            Err(ended) => return ended,
        }
    }
    Ended::Spent
}

/// Does what an event calls for, unless it is the end.
fn meet<A: Archive, R: Source + Drop, K: Sink + Drop, S: Spool + Drop, L: HostLog>(
    host: &mut Host<A, R, K, S>,
    now: Now,
    event: Event<R, K, S>,
    buffer: &mut ReadBuffer,
    log: &mut L,
) -> Result<Now, Ended>
    requires fresh { IsFresh K.taken S.held event }
    requires vacant { IsOffer host.old now.vacancy }
    ensures met { IsMet A.condition A.call_log R.unread K.taken S.held S.size
        (causes_of R.halts K.halts S.failures) L.notes host.old host.new log.old log.new
        now.vacancy event result }
    ensures vacant { IfOk result (λ next. IsOffer host.new next.vacancy) }
    ensures idle { IfOk result (λ next. next.is_busy ≡ false → IsIdle S.size host.new) }
    ensures shut { (cause : Cause) → result ≡ Err (Ended.Shut cause)
        → MayEnd host.new cause (seconds_of event) }
    ensures time { IfOk result (λ _. AllByRecursion (λ second.
        is_overdue host.new.shut second host.new.limits ≡ false) (seconds_of event)) }
{
    match event {
        Event::Ready {
            at,
            is_readable,
            is_writable,
        } => {
            host.set_ready(at, is_readable, is_writable);
            Ok(Now {
                vacancy: now.vacancy,
                is_busy: true,
            })
        }
        Event::Client(client) => {
            let_in(host, now.vacancy, client, log);
            Ok(Now {
                vacancy: host.vacancy(),
                is_busy: true,
            })
        }
        Event::Round(time) => {
            let is_busy = host.round(buffer, &time, log);
            let is_left = ask_on(host, time.second);
            let next = wind_up(host, is_busy | is_left, time.second);
            let_rest(log, &next);
            next
        }
        Event::Stop(second) => {
            host.stop(second);
            wind_up(host, true, second)
        }
        Event::End => Err(Ended::Events),
    }
}

/// Asks whether the store is open, and then has it work ahead, also for requests that wait once it is shut. It returns
/// whether work is left.
fn ask_on<A: Archive, R: Source + Drop, K: Sink + Drop, S: Spool + Drop>(
    host: &mut Host<A, R, K, S>,
    second: u64,
) -> bool
    ensures asks { AsksOn A.condition A.call_log R.unread K.taken S.held host.old host.new second }
    ensures left { host.new.is_left ≡ result }
{
    let _is_open = host.is_open(second);
    host.work_ahead()
}

/// Goes on, unless it is shut and ends: until all connections are closed, or an idle time has passed.
fn wind_up<A: Archive, R: Source + Drop, K: Sink + Drop, S: Spool + Drop>(
    host: &Host<A, R, K, S>,
    is_busy: bool,
    second: u64,
) -> Result<Now, Ended>
    requires idle { is_busy ≡ false → IsIdle S.size host.now }
    ensures vacant { IfOk result (λ next. IsOffer host.now next.vacancy) }
    ensures idle { IfOk result (λ next. next.is_busy ≡ false → IsIdle S.size host.now) }
    ensures end { result ≢ Err Ended.Events }
    ensures unspent { result ≢ Err Ended.Spent }
    ensures shut { (cause : Cause) → result ≡ Err (Ended.Shut cause)
        → MayEnd host.now cause (second ∷ []) }
    ensures time { IfOk result (λ _. is_overdue host.now.shut second host.now.limits ≡ false) }
{
    match host.ending(second) {
        Some(cause) => Err(Ended::Shut(cause)),
        None => Ok(Now {
            vacancy: host.vacancy(),
            is_busy,
        }),
    }
}

/// Lets the log write what it was told, unless the host can go on at once.
fn let_rest<L: HostLog>(log: &mut L, next: &Result<Now, Ended>)
    ensures { L.notes log.new ≡ L.notes log.old }
{
    match next {
        Ok(now) if now.is_busy => {}
        Ok(_) | Err(_) => log.rest(),
    }
}

/// Lets a client in, or turns it away.
fn let_in<A: Archive, R: Source + Drop, K: Sink + Drop, S: Spool + Drop, L: HostLog>(
    host: &mut Host<A, R, K, S>,
    vacancy: Option<usize>,
    client: Client<R, K, S>,
    log: &mut L,
)
    requires fresh { IsFresh K.taken S.held (Event.Client client) }
    requires vacant { IsOffer host.old vacancy }
    ensures { (actions : List HostAction) × Meets A.condition A.call_log R.unread K.taken S.held S.size
        (causes_of R.halts K.halts S.failures) L.notes host.old host.new log.old log.new vacancy
        (Event.Client client) actions }
{
    match vacancy {
        Some(at) => {
            let _reported = host.admit(at, client, log);
        }
        None => {
            log.refused(client.address, host.refusal());
            drop(client);
        }
    }
}
