//! Laws of the definitions, apart from any code.
ghost use Rattle.std.specs.Prelude.{◌≡◌, ℕ, List, [], ◌∷◌, ◌≤◌, ◌++◌, length, take, Some, None, codes};
ghost use Rattle.dep_head.specs.Head.{HeadParts, IsHeadText, head_end, values_of};

/// A text is the text of at most one head.
pub fn one_head()
    ensures { (text : List ℕ) (a b : HeadParts) →
        IsHeadText text a → IsHeadText text b → a ≡ b }
{}

/// A head ends with its empty line, whatever comes behind it (the example of RFC 9112, section 3.2.1).
#[tactic(auto, unfolding(crate::specs::Head::head_end))]
pub fn end_of_rfc9112()
    ensures whole { head_end
        (codes "GET /where?q=now HTTP/1.1\r\nHost: www.example.org\r\n\r\nabc\r\n\r\n") ≡ Some 52 }
    ensures part { head_end (codes "GET /where?q=now HTTP/1.1\r\nHost: www.example.org\r\n\r") ≡ None }
{}

/// Names of fields are compared without their letter case (RFC 9110, section 5.1), and their values keep their order.
#[tactic(auto, unfolding(crate::specs::Head::values_of))]
pub fn values_in_any_letter_case()
    ensures { let fields =
        (codes "If-Match", codes "1") ∷ (codes "Digest", codes "x")
        ∷ (codes "if-match", codes "2") ∷ [] in
        values_of fields (codes "IF-MATCH") ≡ codes "1" ∷ codes "2" ∷ [] }
{}
