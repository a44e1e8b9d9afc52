//! The metadata of an object: under each name its texts.
ghost use Rattle.std.specs.Prelude.{◌≡◌, length};
ghost use Rattle.std.specs.Ordering.{nat_cmp};
ghost use Rattle.std.specs.Cmp.Lexicographic.{slice_cmp};
ghost use Rattle.std.specs.List.Sorted.{IsSearchInRange};
ghost use Rattle.dep_types.specs.MetadataEntries.{AreInOrder, IsPlaceOf};

use crate::list::List;
use crate::text::Text;
use std::alloc::{AllocError, Global};
use std::cmp::Ordering;
use std::marker::Model;

/// A name of metadata, and the texts under it.
#[derive(Drop)]
pub struct MetadataEntry {
    /// The name, as `dc:title`.
    pub name: Text,
    /// The texts, in the order in which they were given.
    pub texts: List<Text>,
}

/// Metadata: under each name its texts. Contracts see it as the finite map from names, in the order of
/// their bytes.
#[derive(Drop)]
pub struct Metadata {
    entries: Vec<MetadataEntry>,
}

impl Model for Metadata {
    ghost use Rattle.std.specs.Prelude.{ℕ, List, map as each, IsTrue};
    ghost use Rattle.std.specs.Coded.{coded_ℕ, coded_list};
    ghost use Rattle.std.specs.FinMap as map;
    ghost use Rattle.dep_types.specs.Maps.{Named, named_code};
    ghost use Rattle.dep_types.specs.MetadataEntries.{name_and_texts, AreInOrder};

    ghost Value = { Named (List (List ℕ)) };

    ghost coded = { named_code (coded_list (coded_list coded_ℕ)) };

    ghost view = { λ m. map.from_sorted (each name_and_texts m.entries.items) };

    ghost invariant = { λ m. AreInOrder m.entries.items };
}

impl Metadata {
    ghost use Rattle.std.specs.Prelude.{map as each, OnOk, OnErr};
    ghost use Rattle.std.specs.Option.{option_copied};
    ghost use Rattle.std.specs.FinMap as map;
    ghost use Rattle.dep_types.specs.MetadataEntries.{name_and_texts};

    /// Metadata without a name. It takes no memory.
    pub fn new(alloc: Global) -> Metadata
        ensures { result ≡ map.empty }
    {
        Metadata {
            entries: Vec::new(alloc),
        }
    }

    /// Each name with its texts, by ascending name.
    pub fn entries(&self) -> &[MetadataEntry]
        ensures { each name_and_texts result.now ≡ map.entries self.now }
    {
        self.entries.as_slice()
    }

    /// Returns the texts under a name, or `None` where the name has none.
    pub fn get(&self, name: &str) -> Option<&List<Text>>
        ensures { option_copied result ≡ map.get self.now name.now }
    {
        match place_of(&self.entries, name) {
            Ok(place) => Some(&self.entries[place].texts),
            Err(_) => None,
        }
    }

    /// Puts texts under a name, in place of those that were there. No name is moved where this one is behind
    /// all others. An `Err` is lack of memory, and changes nothing.
    pub fn insert(&mut self, name: Text, texts: List<Text>) -> Result<(), AllocError>
        ensures ok { OnOk result (self.new ≡ map.insert self.old name texts) }
        ensures err { OnErr result (self.new ≡ self.old) }
    {
        let entry = MetadataEntry { name, texts };
        match place_of(&self.entries, entry.name.as_str()) {
            Ok(place) => self.entries[place] = entry,
            Err(place) => self.entries.insert(place, entry)?,
        }
        Ok(())
    }
}

// Where a name stands, or where it would.
fn place_of(entries: &[MetadataEntry], name: &str) -> Result<usize, usize>
    requires { AreInOrder entries.now }
    ensures range { IsSearchInRange result (length entries.now) }
    ensures place { IsPlaceOf entries.now name.now result }
{
    entries.binary_search_by(
        |entry: &MetadataEntry| -> Ordering
            ensures { result ≡ slice_cmp nat_cmp entry.now.name name.entry.now }
        { entry.name.as_str().cmp(name) },
    )
}
