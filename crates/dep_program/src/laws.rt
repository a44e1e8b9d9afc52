//! Words of the command line of `swordd`, as the definitions read them.
ghost use Rattle.std.specs.Prelude.{◌≡◌, ◌-◌, ◌^◌, [], ◌∷◌, Some, None, codes};
ghost use Rattle.dep_program.specs.Commands.{asked_of, replay, serve, export, audit};

/// A moment has up to 64 bits, also with zeros before it.
pub fn words_of_a_replay()
    ensures greatest { asked_of
        (codes "replay" ∷ codes "0018446744073709551615" ∷ codes "http://h" ∷ [])
        ≡ Some (replay 18446744073709551615 (codes "http://h")) }
    ensures above { asked_of
        (codes "replay" ∷ codes "18446744073709551616" ∷ codes "http://h" ∷ []) ≡ None }
    ensures negative { asked_of (codes "replay" ∷ codes "-1" ∷ codes "http://h" ∷ []) ≡ None }
{}

/// A port is 1 to 65,535, and a count of connections 1 to 1,000,000, also with zeros before them.
pub fn words_of_a_service()
    ensures greatest { asked_of (codes "serve" ∷ codes "065535" ∷ codes "f" ∷ codes "1000000" ∷ [])
        ≡ Some (serve 65535 (codes "f") 1000000) }
    ensures least { asked_of (codes "serve" ∷ codes "1" ∷ codes "f" ∷ codes "1" ∷ [])
        ≡ Some (serve 1 (codes "f") 1) }
    ensures port { asked_of (codes "serve" ∷ codes "65536" ∷ codes "f" ∷ codes "1" ∷ []) ≡ None }
    ensures no_port { asked_of (codes "serve" ∷ codes "0" ∷ codes "f" ∷ codes "1" ∷ []) ≡ None }
    ensures count { asked_of (codes "serve" ∷ codes "80" ∷ codes "f" ∷ codes "1000001" ∷ []) ≡ None }
    ensures no_count { asked_of (codes "serve" ∷ codes "80" ∷ codes "f" ∷ codes "0" ∷ []) ≡ None }
{}

/// The number of an object is written as in the path of a URL; files and folders are taken as they stand.
pub fn words_of_an_export()
    ensures greatest { asked_of
        (codes "export" ∷ codes "f" ∷ codes "4000000000000000000" ∷ codes "d" ∷ [])
        ≡ Some (export (codes "f") 4000000000000000000 (codes "d")) }
    ensures least { asked_of (codes "export" ∷ codes "" ∷ codes "1" ∷ codes "" ∷ [])
        ≡ Some (export [] 1 []) }
    ensures above { asked_of
        (codes "export" ∷ codes "f" ∷ codes "4000000000000000001" ∷ codes "d" ∷ []) ≡ None }
    ensures none { asked_of (codes "export" ∷ codes "f" ∷ codes "0" ∷ codes "d" ∷ []) ≡ None }
    ensures zero { asked_of (codes "export" ∷ codes "f" ∷ codes "01" ∷ codes "d" ∷ []) ≡ None }
    ensures few { asked_of (codes "export" ∷ codes "f" ∷ codes "1" ∷ []) ≡ None }
{}

/// An audit takes a file alone.
pub fn words_of_an_audit()
    ensures file { asked_of (codes "audit" ∷ codes "f" ∷ []) ≡ Some (audit (codes "f")) }
    ensures few { asked_of (codes "audit" ∷ []) ≡ None }
    ensures many { asked_of (codes "audit" ∷ codes "f" ∷ codes "1" ∷ []) ≡ None }
{}

/// Other words ask for nothing.
pub fn words_that_ask_for_nothing()
    ensures none { asked_of [] ≡ None }
    ensures few { asked_of (codes "replay" ∷ codes "1" ∷ []) ≡ None }
    ensures many { asked_of (codes "replay" ∷ codes "1" ∷ codes "http://h" ∷ codes "x" ∷ []) ≡ None }
    ensures other { asked_of (codes "serve" ∷ codes "1" ∷ codes "http://h" ∷ []) ≡ None }
{}
