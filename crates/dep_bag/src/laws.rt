//! Laws of the bag of an object, apart from any code.
ghost use Rattle.std.specs.Prelude.{◌≡◌, ℕ, List, Some, true, IsTrue, [], ◌∷◌, ◌++◌, length, codes, map as each};
ghost use Rattle.std.specs.FinMap as map;
ghost use Rattle.dep_types.specs.State.{State, Object};
ghost use Rattle.dep_types.specs.Sound.{IsSound};
ghost use Rattle.dep_types.specs.Names.{is_good_name};
ghost use Rattle.dep_types.specs.BagPaths.{bag_paths, payload_path, tag_paths};
ghost use Rattle.dep_manifest.specs.Manifest.{digest_by, encoded_path};
ghost use Rattle.dep_manifest.specs.declared.algorithm.Algorithm.{Algorithm};
ghost use Rattle.dep_bag.specs.Bag.{Bag, HoldsAll, oxum, list_text, bag_of, bag_at, bag_files};
ghost use Rattle.dep_bag.specs.Valid.{IsValidBag, NamesFile, is_payload, lines_of};
ghost use Rattle.dep_types.specs.Rows.{object_view};
ghost use Rattle.dep_bag.specs.Parts.{reported_parts, reported_bytes, held_bytes};
ghost use Rattle.dep_bag.specs.Named.{percent_encoded};
ghost use Rattle.dep_bag.specs.Numbered.{file_number};
ghost use Rattle.dep_bag.specs.ExampleBags.{example_payload, paths_with, tag_list};
ghost use Rattle.dep_types.specs.Limits.{IsStorable};

/// The bag of each object of a sound state is valid (RFC 8493, section 3).
pub fn bag_is_valid()
    ensures { (s : State) (n : ℕ) (b : Bag) → IsSound s → bag_at s n ≡ Some b → IsValidBag b }
{}

/// The bag holds each of the files that it is made of: none stands over another.
pub fn bag_holds_each_file()
    ensures { (s : State) (n : ℕ) (o : Object) → IsSound s → map.get s.objects n ≡ Some o
        → HoldsAll (bag_of o) (bag_files o) }
{}

/// Their paths are those that the object's bag lists.
pub fn bag_has_its_paths()
    ensures { (o : Object) → each (λ f. f.0) (bag_files o) ≡ bag_paths o }
{}

/// The parts of a bag that a view of an object has, with the contents of its files, are its bag's files.
pub fn view_reports_bag()
    ensures { (n : ℕ) (o : Object)
        → each (reported_bytes o) (reported_parts (object_view n o)) ≡ each held_bytes (bag_files o) }
{}

/// A valid bag has the digests of each of its payload files, by both algorithms.
pub fn valid_bag_reports_each_file()
    ensures { (b : Bag) (valid : IsValidBag b) (a : Algorithm) (path bytes : List ℕ)
        → is_payload path ≡ true → map.get b.files path ≡ Some bytes
        → NamesFile (digest_by a) (valid.manifest a).lines path bytes }
{}

/// Of the paths of files with good names nothing but the percent sign is written otherwise.
pub fn good_path_is_encoded()
    ensures { (n : ℕ) (name : List ℕ) → IsTrue (is_good_name name)
        → encoded_path (payload_path n name) ≡ percent_encoded (payload_path n name) }
{}

/// The number of a payload file is found by its path.
pub fn payload_path_reports_its_number()
    ensures { (file : ℕ) (name : List ℕ) → IsStorable file
        → file_number (payload_path file name) ≡ Some file }
{}

/// The lines of a bag's list are its paths.
pub fn list_reads_back()
    ensures { (s : State) (n : ℕ) (o : Object) → IsSound s → map.get s.objects n ≡ Some o
        → lines_of (list_text (bag_paths o)) ≡ bag_paths o ++ [] ∷ [] }
{}

/// Five bytes in two files.
pub fn oxum_of_example()
    ensures { oxum example_payload ≡ codes "5.2" }
{}

/// The list of a bag without payload, and how many octets it has with `a.txt`, or with `50%.txt`, whose name isn't encoded there.
pub fn list_of_examples()
    ensures none { list_text tag_paths ≡ tag_list }
    ensures octets { length (list_text tag_paths) ≡ 129 }
    ensures plain { length (list_text (paths_with (codes "a.txt"))) ≡ 142 }
    ensures percent { length (list_text (paths_with (codes "50%.txt"))) ≡ 144 }
{}
