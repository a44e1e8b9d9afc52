//! Where a chunk reader stands, and what one byte more makes of it.
ghost use Rattle.std.specs.Prelude.{◌≡◌, ◌≤◌, ◌++◌, ◌∷◌, ◌&&◌, ◌==◌, [], ℕ, List, length, true};
ghost use Rattle.dep_body.specs.Standing.{StandsAt, IsInLine, IsAtLineEnd, IsBehindData, IsInTrailers, IsSizedLine, IsBehindLines, is_settled};

use crate::left::DataLeft;
use crate::size::{LINE_LIMIT, SizeLine, SizeReading};
use crate::trailers::{SECTION_LIMIT, TrailerReading, Trailers};

/// Where a chunk reader stands in a chunked body.
#[derive(Clone, Copy)]
pub(crate) enum Stage {
    /// In a chunk line.
    Line(SizeLine),
    /// In a chunk.
    Data(DataLeft),
    /// Behind a chunk's bytes, with the first byte of its CR LF if it has come.
    ChunkEnd(Option<u8>),
    /// In the trailers.
    Section(Trailers),
    /// Behind the body.
    Done,
    /// Behind malformed chunks.
    Bad,
    /// Behind a chunk line that asks for more content than is allowed.
    TooLarge,
}

impl Stage {
    /// Whether no byte that follows is read.
    pub fn is_settled(self) -> bool
        ensures { result ≡ is_settled self }
    {
        matches!(self, Stage::Done | Stage::Bad | Stage::TooLarge)
    }
}

/// One byte more of a chunk line, behind `taken` bytes of content.
pub(crate) fn line_after(line: SizeLine, byte: u8, taken: u64, limit: u64) -> Stage
    ensures { (text content : List ℕ) → length content ≡ taken → IsInLine limit content line text
        → StandsAt limit content result (text ++ byte ∷ []) }
{
    if ends_line(line.after_cr, byte) {
        return stage_of(line.reading, taken, limit);
    }
    let length = line.length + 1;
    if length == LINE_LIMIT {
        return Stage::Bad;
    }
    Stage::Line(SizeLine {
        length,
        after_cr: byte == b'\r',
        reading: line.reading_with(byte, limit),
    })
}

// What follows a whole chunk line.
fn stage_of(reading: SizeReading, taken: u64, limit: u64) -> Stage
    ensures { (text content : List ℕ) → length content ≡ taken → IsAtLineEnd limit content reading text
        → StandsAt limit content result text }
{
    match reading {
        SizeReading::Digits(value) | SizeReading::Extension(value) => stage_of_size(
            value, taken, limit,
        ),
        SizeReading::Start | SizeReading::Malformed => Stage::Bad,
    }
}

// What follows a good chunk line, by its value.
fn stage_of_size(value: Option<u64>, taken: u64, limit: u64) -> Stage
    ensures { (text content : List ℕ) (size : ℕ) → length content ≡ taken
        → IsSizedLine limit content size value text
        → StandsAt limit content result text }
{
    let Some(size) = value else {
        return Stage::TooLarge;
    };
    if size == 0 {
        return Stage::Section(Trailers::new());
    }
    match taken.checked_add(size) {
        Some(total) if total <= limit => Stage::Data(DataLeft { bytes: size }),
        _ => Stage::TooLarge,
    }
}

/// One byte more behind the bytes of a chunk.
pub(crate) fn chunk_end_after(before: Option<u8>, byte: u8) -> Stage
    ensures { (limit : ℕ) (text content : List ℕ) → IsBehindData limit content before text
        → StandsAt limit content result (text ++ byte ∷ []) }
{
    let Some(first) = before else {
        return Stage::ChunkEnd(Some(byte));
    };
    if !ends_line(first == b'\r', byte) {
        return Stage::Bad;
    }
    Stage::Line(SizeLine::new())
}

/// One byte more of the trailers.
pub(crate) fn section_after(state: Trailers, byte: u8) -> Stage
    ensures { (limit : ℕ) (text content : List ℕ) → IsInTrailers limit content state text
        → StandsAt limit content result (text ++ byte ∷ []) }
{
    if ends_line(state.after_cr, byte) {
        return stage_of_line(state);
    }
    let length = state.length + 1;
    if length == SECTION_LIMIT {
        return Stage::Bad;
    }
    Stage::Section(Trailers {
        length,
        good: state.good,
        after_cr: byte == b'\r',
        reading: state.reading_with(byte),
    })
}

// What follows LF at the end of a trailer line.
fn stage_of_line(state: Trailers) -> Stage
    ensures { (limit : ℕ) (text content : List ℕ) → state.after_cr ≡ true
        → IsInTrailers limit content state text
        → StandsAt limit content result (text ++ 10 ∷ []) }
{
    match state.reading {
        TrailerReading::Empty if state.good => Stage::Done,
        TrailerReading::Empty => Stage::Bad,
        TrailerReading::Value => next_line(state.length + 1, state.good),
        TrailerReading::Name | TrailerReading::Broken => next_line(state.length + 1, false),
    }
}

// Behind whole trailer lines.
fn next_line(length: usize, good: bool) -> Stage
    requires { length ≤ 16384 }
    ensures { (limit : ℕ) (text content : List ℕ) → IsBehindLines limit content length good text
        → StandsAt limit content result text }
{
    if length == SECTION_LIMIT {
        return Stage::Bad;
    }
    Stage::Section(Trailers {
        length,
        good,
        after_cr: false,
        reading: TrailerReading::Empty,
    })
}

fn ends_line(after_cr: bool, byte: u8) -> bool
    ensures { result ≡ (after_cr && byte == 10) }
{
    after_cr && byte == b'\n'
}
