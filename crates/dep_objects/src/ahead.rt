//! The texts of an object that are read before a request needs them, some at a time.

ghost use Rattle.std.specs.Prelude.{◌≡◌, ℕ, ◌-◌, false, [], ◌∷◌, ◌++◌, length, option_map, IfOk, IfSome};
ghost use Rattle.std.specs.List.{slice_get};
ghost use Rattle.dep_types.specs.State.{State, Texts};
ghost use Rattle.dep_types.specs.Sound.{IsSound};
ghost use Rattle.dep_row_maps.specs.Stored.{HasRow, metadata_rows};
ghost use Rattle.dep_row_maps.specs.TablesAre.{metadata_at};
ghost use Rattle.dep_row_maps.specs.Clauses.{ReadsMaps, ReadsOver};
ghost use Rattle.dep_objects.specs.Objects.{IsDescribed};
ghost use Rattle.dep_objects.specs.Ahead.{AreReadAhead, AreTextsSoFar, IsPage, KeepsRead, key_after};

use crate::gathering::{NamedTexts, close, gather_rows};
use crate::objects::find_object;
use dep_files::Held;
use dep_tables::{LIMIT, MetadataRow, PAGE_SIZE, Statements, texts_from, texts_from_name};
use dep_types::{Metadata, ObjectRow, StoreFault, Text};
use std::alloc::{AllocError, Global};

/// A name, and a place among its texts.
#[derive(Drop)]
pub(crate) struct TextKey {
    name: Text,
    place: u64,
}

/// Rows of texts that follow one another, and where those begin that are left, if any is.
#[derive(Drop)]
pub(crate) struct TextsPage {
    rows: Vec<MetadataRow>,
    next: Option<TextKey>,
}

/// The texts of an object, as far as they were read.
#[derive(Drop)]
pub(crate) struct ReadTexts {
    metadata: Metadata,
    /// The name that was read last, and its texts so far.
    last: Option<NamedTexts>,
    /// Where those begin that are left, unless all of them were read.
    next: TextKey,
    is_whole: bool,
}

/// The texts of an object that were read ahead of a request that shows them. They are lost with the process.
#[derive(Drop)]
pub struct TextsAhead {
    held: Held<ReadTexts>,
}

impl TextsAhead {
    /// No texts of any object. It takes no memory.
    pub fn new() -> TextsAhead
        ensures { (s : State) → AreReadAhead s result }
    {
        TextsAhead {
            held: Held::nothing(),
        }
    }

    /// Takes out the metadata of the object of this row, which is there, where all of it was read.
    pub fn take(&mut self, row: &ObjectRow) -> Option<Metadata>
        ensures left { (s : State) → AreReadAhead s self.old → AreReadAhead s self.new }
        ensures taken { IfSome result (λ metadata. (s : State) → IsSound s → AreReadAhead s self.old
            → HasRow s row.now
            → IsDescribed s row.now.object (record { row = row.now; metadata = metadata })) }
    {
        let read = self.held.take(row)?;
        if read.is_whole {
            return Some(read.metadata);
        }
        self.held.put(row, read);
        None
    }

    // Takes out what was read of the object of this row, which may be nothing yet. It is `None` where the request is passed over.
    fn take_on(&mut self, alloc: Global, row: &ObjectRow) -> Option<ReadTexts>
        ensures left { (s : State) → AreReadAhead s self.old → AreReadAhead s self.new }
        ensures taken { IfSome result (λ read. (s : State) → AreReadAhead s self.old → HasRow s row.now
            → AreTextsSoFar row.now.object (metadata_at s.objects row.now.object) read) }
    {
        if self.held.passes_over(row) {
            return None;
        }
        match self.held.take(row) {
            Some(read) => Some(read),
            None => Some(ReadTexts::none(alloc)),
        }
    }

    /// Forgets what was read, as no request waits for it.
    pub fn forget(&mut self)
        ensures { (s : State) → AreReadAhead s self.new }
    {
        self.held.forget();
    }
}

impl ReadTexts {
    // Nothing is read yet.
    fn none(alloc: Global) -> ReadTexts
        ensures { (n : ℕ) (m : Texts) → AreTextsSoFar n m result }
    {
        ReadTexts {
            metadata: Metadata::new(alloc),
            last: None,
            next: TextKey {
                name: Text::new(String::new(alloc)),
                place: 0,
            },
            is_whole: false,
        }
    }
}

// Where the texts begin behind the last of these rows, if there is one.
fn key_behind(alloc: Global, rows: &[MetadataRow]) -> Result<Option<TextKey>, StoreFault>
    ensures { IfOk result (λ next. next
        ≡ option_map key_after (slice_get rows.now (length rows.now - 1))) }
{
    let Some(row) = rows.last() else {
        return Ok(None);
    };
    if row.place >= LIMIT {
        return Err(StoreFault::Store);
    }
    Ok(Some(TextKey {
        name: Text::copied(alloc, row.name.as_str())?,
        place: row.place + 1,
    }))
}

// The first name behind a name: with a zero byte at its end. SQLite walks none of the name's texts then, of which a million may
// stand before those of the next one.
fn name_behind(alloc: Global, name: &Text) -> Result<Text, AllocError>
    ensures { IfOk result (λ behind. behind ≡ name.now ++ 0 ∷ []) }
{
    let mut behind = String::from_str(alloc, name.as_str())?;
    behind.push_str("\0")?;
    Ok(Text::new(behind))
}

// Reads the next page of an object's texts, from this key on: those of its name, and where none of it is left, those of
// the names above it.
fn next_page<T: Statements>(
    tx: &mut T,
    alloc: Global,
    object: u64,
    from: &TextKey,
) -> Result<TextsPage, StoreFault>
    ensures does { ReadsMaps T.lenders T.state tx.old tx.new result
        (λ s. IsPage (metadata_rows object (metadata_at s.objects object)) from.now) }
{
    let rows = texts_from(tx, alloc, object, &from.name, from.place)?;
    if !rows.is_empty() {
        let next = key_behind(alloc, rows.as_slice())?;
        return Ok(TextsPage { rows, next });
    }
    let behind = name_behind(alloc, &from.name)?;
    let rows = texts_from_name(tx, alloc, object, &behind)?;
    if rows.len() < PAGE_SIZE {
        return Ok(TextsPage { rows, next: None });
    }
    let next = key_behind(alloc, rows.as_slice())?;
    Ok(TextsPage { rows, next })
}

// Gathers the texts of a page behind those that were read.
fn with_page(alloc: Global, read: ReadTexts, page: TextsPage) -> Result<ReadTexts, StoreFault>
    ensures { IfOk result (λ now. (n : ℕ) (m : Texts) → read.is_whole ≡ false → AreTextsSoFar n m read
        → IsPage (metadata_rows n m) read.next page → AreTextsSoFar n m now) }
{
    let mut metadata = read.metadata;
    let last = gather_rows(alloc, &mut metadata, read.last, page.rows)?;
    let Some(next) = page.next else {
        close(&mut metadata, last)?;
        return Ok(ReadTexts {
            metadata,
            last: None,
            next: read.next,
            is_whole: true,
        });
    };
    Ok(ReadTexts {
        metadata,
        last,
        next,
        is_whole: false,
    })
}

// Reads the next texts of an object of which some may be left.
fn read_on<T: Statements>(
    tx: &mut T,
    alloc: Global,
    object: u64,
    read: ReadTexts,
) -> Result<ReadTexts, StoreFault>
    ensures does { ReadsOver T.lenders T.state tx.old tx.new result
        (λ s. read.is_whole ≡ false → AreTextsSoFar object (metadata_at s.objects object) read
        → IfOk result (AreTextsSoFar object (metadata_at s.objects object))) }
{
    let page = next_page(tx, alloc, object, &read.next)?;
    with_page(alloc, read, page)
}

/// Reads texts of an object, if it is there, which a request that shows all of them takes out then
/// ([`take`](TextsAhead::take)). It returns whether more may be left: also where those of another object are read, whose request
/// comes first. What was read is lost where it fails. A number of 2^63 or more is a fault of the store.
pub fn read_ahead<T: Statements>(
    tx: &mut T,
    alloc: Global,
    ahead: &mut TextsAhead,
    object: u64,
) -> Result<bool, StoreFault>
    ensures does { ReadsOver T.lenders T.state tx.old tx.new result
        (λ s. IsSound s → KeepsRead s ahead.old ahead.new) }
{
    let Some(row) = find_object(tx, object)? else {
        return Ok(false);
    };
    let Some(read) = ahead.take_on(alloc, &row) else {
        return Ok(true);
    };
    if read.is_whole {
        ahead.held.put(&row, read);
        return Ok(false);
    }
    let read = read_on(tx, alloc, row.object, read)?;
    let is_left = !read.is_whole;
    ahead.held.put(&row, read);
    Ok(is_left)
}
