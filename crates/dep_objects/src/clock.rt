//! The clock and the numbers to be given next.

ghost use Rattle.std.specs.Prelude.{◌≡◌};
ghost use Rattle.dep_row_maps.specs.Stored.{state_row};
ghost use Rattle.dep_row_maps.specs.TablesAre.{with_counters};
ghost use Rattle.dep_row_maps.specs.Clauses.{ReadsMaps, WritesMaps};

use dep_tables::{StateRow, Statements, read_state, write_state};
use dep_types::StoreFault;

/// Reads the one row of the clock and the counters as those of the state. It is a fault of the store where their
/// row isn't there, or isn't one that the tables can hold.
pub fn counters<T: Statements>(tx: &mut T) -> Result<StateRow, StoreFault>
    ensures does { ReadsMaps T.lenders T.state tx.old tx.new result
        (λ s row. row ≡ state_row s) }
{
    read_state(tx)
}
