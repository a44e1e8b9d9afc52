//! The clock, and the uploads that it ends.

ghost use Rattle.std.specs.Prelude.{◌≡◌, ◌<◌, ◌-◌, ◌^◌, None, IfOk};
ghost use Rattle.std.specs.FinMap as finmap;
ghost use Rattle.dep_types.specs.State.{State, clock_at};
ghost use Rattle.dep_row_maps.specs.Stored.{state_row};
ghost use Rattle.dep_row_maps.specs.TablesAre.{with_counters};
ghost use Rattle.dep_row_maps.specs.Clauses.{ChangesMaps, Does, FromMaps};
ghost use Rattle.dep_uploads.specs.Expiring.{timed_out, expired_all};
ghost use Rattle.dep_staging.specs.Changing.{IsTicked};

use dep_staging::drop_upload;
use dep_tables::{StateRow, Statements, insert_timed_out, left_before, read_state, write_state};
use dep_types::{Config, GREATEST_MOMENT, StoreFault};

fn expire<T: Statements>(tx: &mut T, upload: u64) -> Result<(), StoreFault>
    ensures does { ChangesMaps T.lenders T.state tx.old tx.new result (λ s becomes. becomes (timed_out upload s)) }
{
    drop_upload(tx, upload)?;
    insert_timed_out(tx, upload)
}

// The moment before which an upload was left for longer than is allowed.
fn idle_before(config: &Config, clock: u64) -> u64
    ensures { result ≡ clock - config.now.staging_max_idle }
{
    clock.saturating_sub(config.staging_max_idle)
}

/// Ends the upload that was left the longest, as long as one was left for longer than is allowed.
fn expire_idle<T: Statements>(tx: &mut T, config: &Config, clock: u64) -> Result<(), StoreFault>
    ensures does { ChangesMaps T.lenders T.state tx.old tx.new result
        (λ s becomes. becomes (expired_all config.now clock s)) }
{
    let moment = idle_before(config, clock);
    'uploads: for passed in 0..u64::MAX {
        let Some(left) = left_before(tx, moment)? else {
            return Ok(());
        };
        expire(tx, left.upload)?;
    }
    Err(StoreFault::Store)
}

// The clock at a moment, which moves it on and never back.
fn clock_at(row: &StateRow, moment: u64) -> u64
    ensures { (s : State) → row.now ≡ state_row s → result ≡ clock_at s moment }
{
    row.clock.max(moment.min(GREATEST_MOMENT))
}

// Writes the clock where it moves: a tick within the same second writes nothing.
fn set_clock<T: Statements>(tx: &mut T, row: &StateRow, clock: u64) -> Result<(), StoreFault>
    ensures does { ChangesMaps T.lenders T.state tx.old tx.new result
        (λ s becomes. row.now ≡ state_row s → becomes (with_counters s clock s.next)) }
{
    if clock == row.clock {
        return Ok(());
    }
    write_state(
        tx,
        &StateRow {
            clock,
            next: row.next,
        },
    )
}

/// Moves the clock to the moment, in seconds of Unix time, and never back, and ends each upload that was left
/// idle: its row, its segments and their bytes go, and its number is remembered. It returns the clock. No
/// upload has the number 0. A number of 2^63 or more is a fault of the store.
pub fn tick<T: Statements>(tx: &mut T, config: &Config, moment: u64) -> Result<u64, StoreFault>
    ensures does { Does T.lenders T.state tx.old tx.new result
        (FromMaps (T.state tx.old) (T.state tx.new) (λ s. finmap.get s.uploads 0 ≡ None
        → IfOk result (IsTicked config.now s moment (T.state tx.new)))) }
{
    let row = read_state(tx)?;
    let clock = clock_at(&row, moment);
    set_clock(tx, &row, clock)?;
    expire_idle(tx, config, clock)?;
    Ok(clock)
}
