//! Reads a chunked body piece by piece.
ghost use Rattle.std.specs.Prelude.{◌≡◌, ◌<◌, ◌≤◌, ◌++◌, ℕ, List, [], length, take, true, false, IfOk, OnErr};
ghost use Rattle.dep_body.specs.Standing.{StandsAt, IsInData, is_settled};
ghost use Rattle.dep_body.specs.Feeding.{HasFed, HasChunkByte, ReportsFed, answer_of, used_by};

use crate::left::DataLeft;
use crate::size::SizeLine;
use crate::stage::{Stage, chunk_end_after, line_after, section_after};
use dep_fixity::HashedOctets;
use std::alloc::{AllocError, Global};
use std::marker::Model;

/// What a piece made of a chunked body.
#[derive(Clone, Copy)]
pub enum Fed {
    /// The body goes on behind the piece.
    More,
    /// The body ended, and so many bytes of this piece belong to it.
    Done(usize),
    /// The chunks are malformed.
    Bad,
    /// The content would have more bytes than are allowed.
    TooLarge,
}

/// Reads a chunked body (RFC 9112, section 7.1) that comes in pieces. It keeps the content, and of an
/// unfinished line no more than what it says so far.
#[derive(Drop)]
pub struct ChunkReader {
    max_upload: u64,
    content: HashedOctets,
    is_hashed: bool,
    stage: Stage,
}

impl Model for ChunkReader {
    ghost use Rattle.dep_body.specs.ReaderValue.{ReaderValue};

    ghost Value = { ReaderValue };

    ghost view = { λ r. record { limit = r.max_upload; content = r.content; stage = r.stage } };
}

impl ChunkReader {
    /// A reader of a content of at most `max_upload` bytes, which grows in `alloc`. It takes no memory. The
    /// content is hashed while it comes if `is_hashed` says so, which changes no result.
    pub fn new(alloc: Global, max_upload: u64, is_hashed: bool) -> ChunkReader
        ensures fed { HasFed result [] }
        ensures limit { result.limit ≡ max_upload }
        ensures content { result.content ≡ [] }
    {
        ChunkReader {
            max_upload,
            content: HashedOctets::from_vec(Vec::new(alloc)),
            is_hashed,
            stage: Stage::Line(SizeLine::new()),
        }
    }

    /// Reads the next piece of the body's stream, and no byte of it twice. After `Bad` and `TooLarge` it
    /// returns the same again, and after `Done` it returns `Done(0)`. An `Err` is lack of memory, and changes
    /// nothing.
    pub fn feed(&mut self, piece: &[u8]) -> Result<Fed, AllocError>
        ensures fed { IfOk result (λ _. (fed : List ℕ) → HasFed self.old fed
            → HasFed self.new (fed ++ piece.now)) }
        ensures reported { IfOk result (λ answer. (fed : List ℕ) → HasFed self.old fed
            → ReportsFed self.new fed piece.now answer) }
        ensures within { IfOk result (λ answer. used_by answer ≤ length piece.now) }
        ensures limit { self.new.limit ≡ self.old.limit }
        ensures err { OnErr result (self.new ≡ self.old) }
        ensures wanted { OnErr result ((fed : List ℕ) → HasFed self.old fed
            → HasChunkByte self.old.limit fed piece.now) }
    {
        let held = self.content.as_slice().len();
        let (stage, used) = match advance(self.stage, self.max_upload, &mut self.content, piece) {
            Ok(advanced) => advanced,
            Err(error) => {
                self.content.truncate(held);
                return Err(error);
            }
        };
        self.stage = stage;
        self.hash_early();
        Ok(answer(stage, used))
    }

    // Hashes what has come, if more is to come.
    fn hash_early(&mut self)
        ensures { self.new ≡ self.old }
    {
        if self.is_hashed && !self.stage.is_settled() {
            self.content.hash_to(usize::MAX);
        }
    }

    /// The bytes of the chunks so far, joined. It takes no memory.
    pub fn content(self) -> HashedOctets
        ensures { result ≡ self.content }
    {
        let ChunkReader {
            max_upload: _,
            content,
            is_hashed: _,
            stage: _,
        } = self;
        content
    }
}

fn answer(stage: Stage, used: usize) -> Fed
    ensures { result ≡ answer_of stage used }
{
    match stage {
        Stage::Done => Fed::Done(used),
        Stage::Bad => Fed::Bad,
        Stage::TooLarge => Fed::TooLarge,
        _ => Fed::More,
    }
}

// Goes on from a stage until it is settled or the piece is used up. It returns the stage, and how many bytes
// it used.
fn advance(
    stage: Stage,
    limit: u64,
    content: &mut HashedOctets,
    piece: &[u8],
) -> Result<(Stage, usize), AllocError>
    ensures stands { IfOk result (λ r. (text : List ℕ) → StandsAt limit content.old stage text
        → StandsAt limit content.new r.0 (text ++ take r.1 piece.now)) }
    ensures within { IfOk result (λ r. r.1 ≤ length piece.now) }
    ensures all { IfOk result (λ r. is_settled r.0 ≡ false → r.1 ≡ length piece.now) }
    ensures settled { is_settled stage ≡ true → IfOk result (λ r. (r.1 ≡ 0) × (r.0 ≡ stage)) }
    ensures kept { take (length content.old) content.new ≡ content.old }
    ensures unsettled { OnErr result (is_settled stage ≡ false) }
    ensures wanted { OnErr result ((text : List ℕ) → StandsAt limit content.old stage text
        → HasChunkByte limit text piece.now) }
{
    let mut stage = stage;
    let mut used = 0;
    while used < piece.len() && !stage.is_settled() {
        let (next, count) = step(stage, limit, content, &piece[used..])?;
        stage = next;
        used += count;
    }
    Ok((stage, used))
}

// Uses the first byte, or the first bytes of a chunk.
fn step(
    stage: Stage,
    limit: u64,
    content: &mut HashedOctets,
    rest: &[u8],
) -> Result<(Stage, usize), AllocError>
    requires some { 0 < length rest.now }
    ensures stands { IfOk result (λ r. (text : List ℕ) → StandsAt limit content.old stage text
        → StandsAt limit content.new r.0 (text ++ take r.1 rest.now)) }
    ensures within { IfOk result (λ r. r.1 ≤ length rest.now) }
    ensures some { is_settled stage ≡ false → IfOk result (λ r. 0 < r.1) }
    ensures kept { take (length content.old) content.new ≡ content.old }
    ensures wanted { OnErr result ((left : DataLeft) × (stage ≡ Stage.Data left)) }
{
    let byte = rest[0];
    let taken = content.as_slice().len() as u64;
    match stage {
        Stage::Line(line) => Ok((line_after(line, byte, taken, limit), 1)),
        Stage::Data(left) => take_data(left, content, rest),
        Stage::ChunkEnd(before) => Ok((chunk_end_after(before, byte), 1)),
        Stage::Section(state) => Ok((section_after(state, byte), 1)),
        Stage::Done | Stage::Bad | Stage::TooLarge => Ok((stage, 0)),
    }
}

// Takes the bytes of a chunk, of which so many are left.
fn take_data(
    left: DataLeft,
    content: &mut HashedOctets,
    rest: &[u8],
) -> Result<(Stage, usize), AllocError>
    requires some { 0 < length rest.now }
    ensures stands { IfOk result (λ r. (limit : ℕ) (text : List ℕ)
        → IsInData limit content.old left.bytes text
        → StandsAt limit content.new r.0 (text ++ take r.1 rest.now)) }
    ensures within { IfOk result (λ r. r.1 ≤ length rest.now) }
    ensures some { IfOk result (λ r. 0 < r.1) }
    ensures kept { take (length content.old) content.new ≡ content.old }
{
    let count = left.bytes.min(rest.len() as u64) as usize;
    content.append(&rest[..count], usize::MAX)?;
    let later = left.bytes - count as u64;
    if later == 0 {
        return Ok((Stage::ChunkEnd(None), count));
    }
    Ok((Stage::Data(DataLeft { bytes: later }), count))
}
