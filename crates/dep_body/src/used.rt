//! Bytes that were used and are in memory no more.
ghost use Rattle.std.specs.Prelude.{◌≡◌, ℕ, List, [], ◌++◌};
ghost use Rattle.std.specs.Borrow.{ftrue};

use std::marker::Model;

/// Bytes that were used and are in memory no more. Proofs alone read them: it takes no memory, and its functions do
/// nothing. Nothing here ties it to what came: the clauses of what keeps it do.
#[derive(Drop)]
pub struct UsedBytes {
    /// The bytes, in the order in which they were used.
    pub ghost items: { List ℕ },
}

impl Model for UsedBytes {
    ghost also_owns = { λ _. ftrue };
}

impl UsedBytes {
    /// No bytes.
    pub fn new() -> UsedBytes
        ensures { result.items ≡ [] }
    {
        UsedBytes {}
    }

    /// These, and more behind them.
    pub fn and(&self, _bytes: &[u8]) -> UsedBytes
        ensures { result.items ≡ self.now.items ++ _bytes.now }
    {
        UsedBytes {}
    }
}
