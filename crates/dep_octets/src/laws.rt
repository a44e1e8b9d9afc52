//! Published texts, as the definitions compute them.
ghost use Rattle.std.specs.Prelude.{◌≡◌, [], ◌∷◌, codes};
ghost use Rattle.dep_octets.specs.Octets.{decimal_number, members};
ghost use Rattle.dep_octets.specs.declared.numbers.Number.TheVariants.{Above, Value};

/// The examples of lists in RFC 9110, section 5.6.1.2.
#[tactic(auto, unfolding(crate::specs::Octets::trimmed))]
pub fn members_of_rfc9110()
    ensures two { members (codes "foo,bar") ≡ codes "foo" ∷ codes "bar" ∷ [] }
    ensures trailing { members (codes "foo ,bar,") ≡ codes "foo" ∷ codes "bar" ∷ [] }
    ensures three { members (codes "foo , ,bar,charlie") ≡ codes "foo" ∷ codes "bar" ∷ codes "charlie" ∷ [] }
    ensures none { members (codes "") ≡ [] }
    ensures comma { members (codes ",") ≡ [] }
    ensures blanks { members (codes ",   ,") ≡ [] }
{}

/// The greatest number of 64 bits, and the next one.
pub fn numbers_of_64_bits()
    ensures greatest { decimal_number (codes "18446744073709551615") 18446744073709551615 ≡
        Value 18446744073709551615 }
    ensures above { decimal_number (codes "18446744073709551616") 18446744073709551615 ≡ Above }
{}
