//! The clock.

use crate::tasks::Task;
use dep_moment::Moment;
use dep_tables::{Statements, read_state, write_state};
use dep_types::{Config, StoreFault};

/// Moves the clock to the moment, and never back, and ends the uploads that were left idle.
#[derive(Clone, Copy)]
pub(crate) struct MoveClock<'a> {
    pub(crate) config: &'a Config,
    pub(crate) moment: u64,
}

impl<'a> Task for MoveClock<'a> {
    ghost use Rattle.std.specs.Prelude.{◌≡◌};
    ghost use Rattle.dep_types.specs.State.{tick};
    ghost use Rattle.dep_transactions.specs.Transactions.{OverStates};

    type Answer = Moment;

    ghost makes = { λ asked. OverStates
        (λ s clock. clock ≡ (tick asked.config.now s asked.moment).clock)
        (λ s. tick asked.config.now s asked.moment) };

    fn run<T: Statements>(&self, tx: &mut T) -> Result<Moment, StoreFault> {
        let moved = dep_uploads::tick(tx, self.config, self.moment)?;
        let clock = Moment::new(moved);
        Ok(clock)
    }
}

/// Writes the row of the clock and the counters as it is read. Before its commit SQLite copies a long log into the file.
#[derive(Clone, Copy)]
pub(crate) struct WriteClock;

impl Task for WriteClock {
    ghost use Rattle.dep_store.specs.Copying.{RewritesClock};

    type Answer = ();

    ghost makes = { λ _ before done after. RewritesClock before after };

    fn run<T: Statements>(&self, tx: &mut T) -> Result<(), StoreFault> {
        let row = read_state(tx)?;
        write_state(tx, &row)
    }
}
