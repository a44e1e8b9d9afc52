//! Laws of the state and of the tick, apart from any code.
ghost use Rattle.std.specs.Prelude.{◌≡◌, ℕ, ◌≤◌, IsTrue};
ghost use Rattle.std.specs.FinSet as set;
ghost use Rattle.dep_types.specs.State.{State, tick, empty_state};
ghost use Rattle.dep_types.specs.Sound.{IsSound};
ghost use Rattle.dep_types.specs.declared.config.Config.{Config};

/// A tick at the same moment changes nothing more.
pub fn tick_again()
    ensures { (config : Config) (s : State) (moment : ℕ) →
        tick config (tick config s moment) moment ≡ tick config s moment }
{}

/// The clock never goes back.
pub fn clock_never_falls()
    ensures { (config : Config) (s : State) (moment : ℕ)
        → s.clock ≤ (tick config s moment).clock }
{}

/// A number that timed out stays so.
pub fn timed_out_for_good()
    ensures { (config : Config) (s : State) (moment u : ℕ) → IsTrue (set.contains s.timed_out u) →
        IsTrue (set.contains (tick config s moment).timed_out u) }
{}

/// A tick keeps a sound state sound.
pub fn tick_keeps_sound()
    ensures { (config : Config) (s : State) (moment : ℕ) → IsSound s
        → IsSound (tick config s moment) }
{}

/// What a new store keeps is sound.
pub fn empty_is_sound()
    ensures { IsSound empty_state }
{}
