//! Laws of the definitions, apart from any code. What a stream begins with stays when more bytes follow, since
//! each law speaks of a text and any bytes behind it.
ghost use Rattle.std.specs.Prelude.{◌≡◌, ℕ, List, ◌++◌, length, Some, None};
ghost use Rattle.dep_body.specs.Body.{IsBodyText, IsBodyFault, IsPartOfBody, IsSection, IsBegunSection};
ghost use Rattle.dep_body.specs.Trailers.{section_end};
ghost use Rattle.dep_body.specs.declared.frame.Framing.{Framing as Frame};
ghost use Rattle.dep_body.specs.declared.frame.FrameFault.{FrameFault as Fault};

/// A stream begins with at most one body, which has one content. So no body is a proper prefix of another.
pub fn one_body()
    ensures { (limit : ℕ) (framing : Frame) (a b x y c d : List ℕ) → a ++ x ≡ b ++ y
        → IsBodyText limit framing a c → IsBodyText limit framing b d → (a ≡ b) × (c ≡ d) }
{}

/// A stream begins with at most one fault of a body.
pub fn one_fault()
    ensures { (limit : ℕ) (framing : Frame) (a b x y : List ℕ) (f g : Fault) → a ++ x ≡ b ++ y
        → IsBodyFault limit framing a f → IsBodyFault limit framing b g → (a ≡ b) × (f ≡ g) }
{}

/// No stream begins with a body and with a fault of one.
pub fn body_or_fault()
    ensures { (limit : ℕ) (framing : Frame) (a b x y c : List ℕ) (f : Fault) → a ++ x ≡ b ++ y
        → IsBodyText limit framing a c → ¬ IsBodyFault limit framing b f }
{}

/// A stream that is a part of a body begins with no body.
pub fn part_or_body()
    ensures { (limit : ℕ) (framing : Frame) (a x c : List ℕ) → IsBodyText limit framing a c
        → ¬ IsPartOfBody limit framing (a ++ x) }
{}

/// A stream that is a part of a body begins with no fault.
pub fn part_or_fault()
    ensures { (limit : ℕ) (framing : Frame) (a x : List ℕ) (f : Fault) → IsBodyFault limit framing a f
        → ¬ IsPartOfBody limit framing (a ++ x) }
{}

/// Trailer lines and a CR LF behind them end at that CR LF, and where no line is empty yet they have no end: so the
/// end is the first CR LF CR LF, or the CR LF at the front.
pub fn sections_end()
    ensures whole { (text : List ℕ) (lines : List (List ℕ)) → IsSection text lines
        → section_end text ≡ Some (length text) }
    ensures begun { (text : List ℕ) → IsBegunSection text → section_end text ≡ None }
{}
