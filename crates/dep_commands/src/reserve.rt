//! Room on a disk that is kept for when there is no other.
ghost use Rattle.std.specs.Prelude.{◌≡◌, Bool, false};

/// Room on a disk that is kept for when there is no other. Once it is given up there is room for clocks, for deletions and for
/// the copy of a store's log.
pub trait Reserve {
    /// Whether it stands.
    ghost is_standing: { Self → Bool };

    /// Whether it stands, and was not given up.
    fn is_intact(&self) -> bool
        ensures { result ≡ is_standing self.now };

    /// Gives it up.
    fn give_up(&mut self)
        ensures { is_standing self.new ≡ false };

    /// Takes it anew, where there is room for it and for some more. Whether there is no clause can say.
    fn restore(&mut self);
}
