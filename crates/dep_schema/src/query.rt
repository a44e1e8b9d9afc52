//! The query of the blocks of an owner.

ghost use Rattle.std.specs.Prelude.{◌≡◌};
ghost use Rattle.dep_tables.specs.Texts.{blocks_of_text};

/// The query that shows part, place and bytes of each block of an owner, by part and place. Its
/// parameters are those of `owner_params`.
pub(crate) fn blocks_query() -> &'static str
    ensures { result.now ≡ blocks_of_text }
{
    "SELECT part, place, bytes FROM blocks WHERE kind = ?1 AND owner = ?2 ORDER BY part, place"
}
