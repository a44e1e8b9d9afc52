//! What bags are made from.
ghost use Rattle.std.specs.Prelude.{◌≡◌, ◌≢◌, OnOk, Err};
ghost use Rattle.dep_types.specs.State.{State};
ghost use Rattle.dep_types.specs.Conditions.{Condition, Represents, Leaves};
ghost use Rattle.dep_types.specs.Streams.{IsStreamed};
ghost use Rattle.dep_types.specs.Writing.{HasRisen};
ghost use Rattle.dep_bag.specs.Source.{OfEachState, ReportsView, GivesFrom, KeepsStanding, StandsStill};

use dep_types::{ObjectView, Outlet, StoreFault, StreamFault};

/// What bags are made from: it represents a state of the archive, shows its objects, and sends the contents
/// of its files.
pub trait BagSource {
    /// How it stands.
    ghost condition: { Self → Condition };

    /// Returns the object with this number as it is shown, if it is there.
    fn view(&mut self, object: u64) -> Result<Option<ObjectView>, StoreFault>
        ensures ok { OfEachState (condition self.old) (condition self.new)
            (λ s. ReportsView s object result) }
        ensures kept { KeepsStanding (condition self.old) (condition self.new) result }
        ensures still { StandsStill (condition self.old) (condition self.new) };

    /// Sends the content of the file with this number.
    fn stream<O: Outlet>(&mut self, file: u64, out: &mut O) -> Result<(), StreamFault>
        ensures sends { GivesFrom (condition self.old) (condition self.new)
            (O.taken out.old) (O.taken out.new) (λ s sent. IsStreamed s file sent result) }
        ensures kept { KeepsStanding (condition self.old) (condition self.new) result }
        ensures still { StandsStill (condition self.old) (condition self.new) }
        ensures count { OnOk result (O.failures out.new ≡ O.failures out.old) }
        ensures cause { result ≡ Err StreamFault.Writer →
            HasRisen (O.failures out.old) (O.failures out.new) }
        ensures others { result ≢ Err StreamFault.Writer →
            O.failures out.new ≡ O.failures out.old };

    // While it represents a state, a crash leaves that state.
    ghost settled: { (x : Self) (s : State) → Represents (condition x) s
        → Leaves (condition x) (λ left. left ≡ s) };
}
