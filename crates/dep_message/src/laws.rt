//! Laws of the definitions, apart from any code.
ghost use Rattle.std.specs.Prelude.{◌≡◌, ℕ, Bool, List, ◌++◌};
ghost use Rattle.dep_message.specs.Giving.{GivesStep};
ghost use Rattle.dep_message.specs.Heads.{closes};
ghost use Rattle.dep_message.specs.Places.{Place, Reading, place_with};
ghost use Rattle.dep_message.specs.Stream.{Item, Request, FirstAt, ReadsItems, IsRequestText, Spells};
ghost use Rattle.dep_message.specs.declared.intake.Step.{Step};
ghost use Rattle.dep_message.specs.declared.intake.Step.TheVariants as Step;
ghost use Rattle.dep_message.specs.declared.message.Message.{Message};

/// What was read is read still when more bytes come, and what was left goes on with them.
pub fn reading_carries_on()
    ensures { (limit : ℕ) (items : List Item) (from to : Place) (piece : List ℕ)
        → ReadsItems limit from items to → ReadsItems limit (place_with from piece) items (place_with to piece) }
{}

/// Bytes begin with the text of at most one request.
pub fn one_request()
    ensures { (limit : ℕ) (continued : Bool) (a b x y : List ℕ) (m k : Message) → a ++ x ≡ b ++ y
        → IsRequestText limit continued a m → IsRequestText limit continued b k → (m ≡ k) × (x ≡ y) }
{}

/// Where a request stands first, as behind a preview that showed it, the next step is that request.
pub fn shown_is_next()
    ensures { (old new : Reading) (m : Message) (next : Place) (step : Step)
        → FirstAt old.limit old.place (Request m) next → GivesStep old new step
        → (step ≡ Step.Message m (closes m.head)) × (new.place ≡ next) }
{}

/// A stream spells one list of items, and leaves one place.
pub fn one_spelling()
    ensures { (limit : ℕ) (stream : List ℕ) (xs ys : List Item) (p q : Place)
        → Spells limit stream xs p → Spells limit stream ys q → (xs ≡ ys) × (p ≡ q) }
{}

/// Every stream has a spelling: it isn't so that it has none. So one of the cases holds of each stream, for whatever bytes
/// it begins with.
pub fn every_stream_is_spelled()
    ensures { (limit : ℕ) (stream : List ℕ)
        → ¬ ((items : List Item) (left : Place) → ¬ Spells limit stream items left) }
{}

/// The items of a prefix are a prefix of the items.
pub fn items_grow()
    ensures { (limit : ℕ) (stream piece : List ℕ) (xs ys : List Item) (p q : Place)
        → Spells limit stream xs p → Spells limit (stream ++ piece) ys q
        → (more : List Item) × (ys ≡ xs ++ more) }
{}
