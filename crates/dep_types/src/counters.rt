//! The numbers that are given next.
ghost use Rattle.std.specs.Prelude.{◌≡◌, nat_le};
ghost use Rattle.dep_types.specs.Numbers.{greatest_number, has_room};

/// The greatest number of an object, a file, an upload or a change, and the first one that is never given.
pub const GREATEST_NUMBER: u64 = 4_000_000_000_000_000_000;

/// The next number of each kind, or how many of each kind are taken. A number is never given twice.
#[derive(Clone, Copy, PartialEq, Eq)]
pub struct Counters {
    /// Of objects.
    pub object: u64,
    /// Of files, which are counted over all objects.
    pub file: u64,
    /// Of staged uploads.
    pub upload: u64,
    /// Of changes, whose numbers are the entity tags.
    pub change: u64,
}

impl Counters {
    ghost use Rattle.std.specs.Prelude.{◌≡◌, IsTrue};
    ghost use Rattle.dep_types.specs.Numbers.{room_for, counters_after};

    /// Whether so many more numbers of each kind can be given.
    #[tactic(auto, unfolding(crate::specs::Numbers::room_for))]
    pub fn has_room(&self, taken: &Counters) -> bool
        ensures { result ≡ room_for self.now taken.now }
    {
        has_room(self.object, taken.object)
            && has_room(self.file, taken.file)
            && has_room(self.upload, taken.upload)
            && has_room(self.change, taken.change)
    }

    /// The next numbers once so many were taken.
    pub fn after_taking(&self, taken: &Counters) -> Counters
        requires { IsTrue (room_for self.now taken.now) }
        ensures { result ≡ counters_after self.now taken.now }
    {
        Counters {
            object: self.object + taken.object,
            file: self.file + taken.file,
            upload: self.upload + taken.upload,
            change: self.change + taken.change,
        }
    }
}

// A sum past the greatest number is past it, also where it is past 64 bits.
fn has_room(next: u64, wanted: u64) -> bool
    ensures { result ≡ has_room next wanted }
{
    wanted == 0 || next.saturating_add(wanted) <= GREATEST_NUMBER
}
