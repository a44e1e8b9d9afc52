//! One connection over a store in memory.
ghost use Rattle.std.specs.Prelude.{◌≡◌, false};
ghost use Rattle.std.specs.Io.KnownBytes.{Keeps};
ghost use Rattle.sqlite.specs.Held.{state};
ghost use Rattle.dep_connection.specs.Flushing.{IsFlushed};
ghost use Rattle.dep_program.specs.Gathering.{gathered_bytes, held_in, given};
ghost use Rattle.dep_application.specs.Replays.{FromNothing, Replays, ReplaysIn, ReplaysSent, wire_gathered, wire_of};

use crate::starting::{close_hub, open_hub};
use dep_connection::{Flush, serve_connection};
use dep_moment::Moment;
use dep_program::{Gathered, Outcome, configuration, outcome_of, outcome_sent};
use dep_store::Unwatched;
use dep_types::Inlet;
use sqlite::{Alter, Connection};
use std::alloc::Global;
use std::io::Write;

/// When the pieces of a connection come, and under which base it is served.
#[derive(Clone, Copy)]
struct Setting<'a> {
    moment: Moment,
    base: &'a str,
}

/// Serves one connection over a store in memory, which is empty at first: the reader is read to its end,
/// or until the connection is closed, each piece at the moment, and the replies go to the writer.
pub fn replay<R: Inlet, W: Flush>(
    alloc: Global,
    moment: Moment,
    base: &str,
    reader: &mut R,
    writer: &mut W,
) -> Outcome
    ensures replays { Replays base.now moment
        (wire_of R.Inlet W.Outlet W.held W.has_failed reader.old writer.old)
        (wire_of R.Inlet W.Outlet W.held W.has_failed reader.new writer.new) result }
    ensures flushed { IsFlushed (W.held writer.old) (W.has_failed writer.old)
        → IsFlushed (W.held writer.new) (W.has_failed writer.new) }
{
    let setting = Setting { moment, base };
    match Connection::open_in_memory(alloc) {
        Ok(connection) => {
            let (outcome, connection) = replay_database(alloc, setting, connection, reader, writer);
            drop(connection);
            outcome
        }
        Err(_) => Outcome::StoreFault,
    }
}

/// Replays a connection over an outlet that gathers. It is done only where the writer took all replies.
pub fn replay_gathered<R: Inlet, W: Write + Drop>(
    alloc: Global,
    moment: Moment,
    base: &str,
    reader: &mut R,
    outlet: &mut Gathered<W>,
) -> Outcome
    ensures replays { ReplaysSent base.now moment
        (wire_gathered R.Inlet reader.old W.contents outlet.old)
        (wire_gathered R.Inlet reader.new W.contents outlet.new)
        outlet.new.has_failed result }
    // The writer has all that was sent.
    ensures sent { result ≡ Outcome.Done → IsFlushed (held_in outlet.old) outlet.old.has_failed
        → Keeps (gathered_bytes W.contents outlet.new) (given W.contents outlet.new) }
{
    let outcome = replay(alloc, moment, base, reader, outlet);
    outcome_sent(outlet.has_failed(), outcome)
}

// Opens the store in the database, which has no table, serves the connection, and hands the database back.
// A call, at a store in memory, of a function that is generic in the store is dear to prove: this one alone is called so.
fn replay_database<S: Alter, R: Inlet, W: Flush>(
    alloc: Global,
    setting: Setting<'_>,
    connection: Connection<S>,
    reader: &mut R,
    writer: &mut W,
) -> (Outcome, Connection<S>)
    requires settled { (state S.Store connection).in_transaction ≡ false }
    ensures replays { FromNothing (state S.Store connection) (state S.Store result.1)
        (ReplaysIn setting.entry (wire_of R.Inlet W.Outlet W.held W.has_failed reader.old writer.old)
        (wire_of R.Inlet W.Outlet W.held W.has_failed reader.new writer.new) result.0) }
    ensures flushed { IsFlushed (W.held writer.old) (W.has_failed writer.old)
        → IsFlushed (W.held writer.new) (W.has_failed writer.new) }
{
    let Ok(config) = configuration(alloc, setting.base) else {
        return (Outcome::StoreFault, connection);
    };
    match open_hub(alloc, config, connection, &mut Unwatched) {
        Ok(mut hub) => {
            let moment = setting.moment;
            let mut clock = move || -> Moment
                ensures { result ≡ moment }
            { moment };
            let served = serve_connection(alloc, reader, writer, &mut hub, &mut clock);
            (outcome_of(served), close_hub(hub))
        }
        Err((fault, connection)) => (fault.outcome(), connection),
    }
}
