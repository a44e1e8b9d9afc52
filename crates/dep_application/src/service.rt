//! A database, served at a port of 127.0.0.1.
ghost use Rattle.std.specs.Prelude.{◌≡◌, false, IsTrue};
ghost use Rattle.sqlite.specs.Held.{state};
ghost use Rattle.sqlite.specs.State.{HasCleanDisk};
ghost use Rattle.dep_program.specs.Setup.{program_config, base_at};
ghost use Rattle.dep_application.specs.Databases.{ServesDatabase};

use crate::starting::{close_hub, open_hub};
use dep_commands::serve_at;
use dep_program::{ListenOptions, Outcome, configuration_at};
use dep_schema::Watch;
use sqlite::{Alter, Connection};

/// Opens the store in the database, serves so many connections of 127.0.0.1 at the port, one after another, and hands
/// the database back. The watch is told of what is read where version 1 becomes version 2.
pub fn serve_database<S: Alter, P: Watch>(
    rt: &HostRuntime,
    options: ListenOptions,
    connection: Connection<S>,
    watch: &mut P,
) -> (Outcome, Connection<S>)
    requires settled { (state S.Store connection).in_transaction ≡ false }
    ensures serves { ServesDatabase S.Store (program_config (base_at options.port)) options.count
        connection result.1 result.0 }
    ensures honest { HasCleanDisk (state S.Store result.1) → HasCleanDisk (state S.Store connection) }
    ensures open { IsTrue (state S.Store result.1).is_open
        → IsTrue (state S.Store connection).is_open }
{
    let alloc = rt.alloc();
    let Ok(config) = configuration_at(alloc, u64::from(options.port)) else {
        return (Outcome::StoreFault, connection);
    };
    match open_hub(alloc, config, connection, watch) {
        Ok(mut hub) => {
            let outcome = serve_at(rt, alloc, options, &mut hub);
            (outcome, close_hub(hub))
        }
        Err((fault, connection)) => (fault.outcome(), connection),
    }
}
