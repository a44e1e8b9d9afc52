//! How many files were checked.
ghost use Rattle.std.specs.Prelude.{◌≡◌, ◌⊎◌, ◌+◌, ◌≤◌, ◌^◌, IfSome, None};

/// How many files were checked, and how many of them are damaged.
#[derive(Clone, Copy)]
pub(crate) struct Tally {
    pub checked: u64,
    pub damaged: u64,
}

impl Tally {
    /// The sums of both, if neither passes 64 bits.
    pub fn plus(self, other: Tally) -> Option<Tally>
        ensures checked { IfSome result (λ sum. sum.checked ≡ self.checked + other.checked) }
        ensures damaged { IfSome result (λ sum. sum.damaged ≡ self.damaged + other.damaged) }
        ensures none { result ≡ None → (2 ^ 64 ≤ self.checked + other.checked)
            ⊎ (2 ^ 64 ≤ self.damaged + other.damaged) }
    {
        Some(Tally {
            checked: self.checked.checked_add(other.checked)?,
            damaged: self.damaged.checked_add(other.damaged)?,
        })
    }
}
