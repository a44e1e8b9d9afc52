//! How far uploads were hashed before a request needs their digests.

ghost use Rattle.std.specs.Prelude.{◌≡◌, ◌<◌, ◌+◌, ◌^◌, ◌++◌, ℕ, List, IfSome, IsTrue};
ghost use Rattle.dep_types.specs.State.{State};
ghost use Rattle.dep_fixity.specs.Fixity.{HashesMessage};
ghost use Rattle.dep_staging.specs.HashedAhead.{AreRunning, HasHashedNothing, IsRunning, LacksNone};

use dep_fixity::Hasher;
use lru::LruCache;
use std::alloc::Global;
use std::collections::BTreeSet;
use std::num::NonZeroUsize;

/// Of so many uploads it is kept how far they were hashed. Each takes about 430 bytes, so all take less than 4 MiB.
const MOST_RUNNING: usize = 8_192;

/// How far an upload was hashed: its first segments, as far as none is missing.
#[derive(Drop)]
pub struct RunningHash {
    pub(crate) upload: u64,
    pub(crate) hasher: Hasher,
    /// How many of its segments were hashed whole.
    pub(crate) segments: u64,
    /// How many blocks of the next one were.
    pub(crate) blocks: u64,
    /// Whether its row was seen to have no more segments.
    pub(crate) is_whole: bool,
}

impl RunningHash {
    /// Nothing is hashed yet.
    fn new(upload: u64) -> RunningHash
        ensures fresh { HasHashedNothing result }
        ensures upload { result.upload ≡ upload }
    {
        RunningHash {
            upload,
            hasher: Hasher::new(),
            segments: 0,
            blocks: 0,
            is_whole: false,
        }
    }

    /// Hashes the next block.
    pub(crate) fn take(&mut self, block: &[u8])
        requires { self.old.blocks < 2 ^ 63 }
        ensures holds { (message : List ℕ) → HashesMessage self.old.hasher message
            → HashesMessage self.new.hasher (message ++ block.now) }
        ensures blocks { self.new.blocks ≡ self.old.blocks + 1 }
        ensures segments { self.new.segments ≡ self.old.segments }
        ensures upload { self.new.upload ≡ self.old.upload }
    {
        self.hasher.update(block);
        self.blocks += 1;
    }

    /// Goes on to the next segment.
    pub(crate) fn end_segment(&mut self)
        requires { self.old.segments < 2 ^ 63 }
        ensures hasher { self.new.hasher ≡ self.old.hasher }
        ensures blocks { self.new.blocks ≡ 0 }
        ensures segments { self.new.segments ≡ self.old.segments + 1 }
        ensures upload { self.new.upload ≡ self.old.upload }
    {
        self.segments += 1;
        self.blocks = 0;
    }
}

/// How far uploads were hashed, of the 8,192 of which that was needed last: segments came to them, a request needed
/// their digests, or they were in the store when it was opened. A whole upload's digests are read off it at once. It is
/// lost with the process. Memory is claimed for one upload at a time; where it is refused, one is forgotten.
#[derive(Drop)]
pub struct RunningHashes {
    alloc: Global,
    /// Each under its number, if any was kept yet.
    pub(crate) kept: Option<LruCache<u64, RunningHash>>,
    /// The numbers of those of which a segment may be there that isn't hashed.
    due: BTreeSet<u64>,
    /// From this number on the next one is taken.
    turn: u64,
    /// Up to this number the uploads of the store were noted as it was opened, or all of them.
    noted: Option<u64>,
}

impl RunningHashes {
    /// Running hashes of no upload. It takes no memory.
    pub fn new(alloc: Global) -> RunningHashes
        ensures { (s : State) → AreRunning s result }
    {
        RunningHashes {
            alloc,
            kept: None,
            due: BTreeSet::new(alloc),
            turn: 0,
            noted: Some(0),
        }
    }

    /// Notes that a segment of the upload may be there that isn't hashed. Nothing is noted of more than 8,192 at once,
    /// nor where memory is refused.
    pub fn note(&mut self, upload: u64)
        ensures { (s : State) → AreRunning s self.old → AreRunning s self.new }
    {
        if self.due.len() < MOST_RUNNING {
            let _ = self.due.insert(upload);
        }
    }

    /// Whether it is kept how far the upload was hashed.
    pub(crate) fn is_kept(&self, upload: u64) -> bool {
        match &self.kept {
            Some(kept) => kept.contains(&upload),
            None => false,
        }
    }

    /// Whether all of the upload was hashed, by its row as that was seen.
    pub(crate) fn was_whole(&self, upload: u64) -> bool {
        match &self.kept {
            Some(kept) => matches!(kept.peek(&upload), Some(run) if run.is_whole),
            None => false,
        }
    }

    /// Whether all of an upload was hashed that comes in so many segments, so that it lacks none.
    /// Nothing is read. An upload of which this isn't known may be whole as well.
    pub fn is_hashed_whole(&self, upload: u64, count: u64) -> bool
        ensures { IsTrue result → (s : State) → AreRunning s self.now
            → LacksNone s upload count }
    {
        let Some(kept) = &self.kept else {
            return false;
        };
        match kept.peek(&upload) {
            Some(run) => run.segments == count,
            None => false,
        }
    }

    /// Takes out how far the upload was hashed.
    pub(crate) fn take(&mut self, upload: u64) -> RunningHash
        ensures others { (s : State) → AreRunning s self.old → AreRunning s self.new }
        ensures taken { (s : State) → AreRunning s self.old
            → IsRunning s result × (result.upload ≡ upload) }
    {
        let Some(kept) = &mut self.kept else {
            return RunningHash::new(upload);
        };
        match kept.pop(&upload) {
            Some(run) => run,
            None => RunningHash::new(upload),
        }
    }

    /// Takes out one that is due, each in its turn, by number.
    pub(crate) fn take_due(&mut self) -> Option<RunningHash>
        ensures others { (s : State) → AreRunning s self.old → AreRunning s self.new }
        ensures taken { IfSome result (λ run. (s : State) → AreRunning s self.old → IsRunning s run) }
    {
        let upload = self.next_due()?;
        self.turn = upload.saturating_add(1);
        Some(self.take(upload))
    }

    fn next_due(&self) -> Option<u64> {
        match self.due.range(self.turn..).next() {
            Some(upload) => Some(*upload),
            None => self.due.first().copied(),
        }
    }

    /// Puts back one that was due, and is so still where more of it may be left.
    pub(crate) fn put_back(&mut self, run: RunningHash, is_left: bool)
        ensures { (s : State) → AreRunning s self.old → IsRunning s run → AreRunning s self.new }
    {
        let upload = run.upload;
        self.put(run);
        if !is_left {
            self.due.remove(&upload);
        }
    }

    /// Puts one in, for which the one that was put in the longest ago gives way where there are too many. It is dropped
    /// where memory is refused, and where nothing was hashed.
    pub(crate) fn put(&mut self, run: RunningHash)
        ensures { (s : State) → AreRunning s self.old → IsRunning s run → AreRunning s self.new }
    {
        if run.segments == 0 && run.blocks == 0 {
            return;
        }
        if let Some(forgotten) = self.keep(run) {
            self.due.remove(&forgotten);
        }
    }

    // Returns the number of the one that is forgotten, if one is: where memory is refused, that is the one put in.
    fn keep(&mut self, run: RunningHash) -> Option<u64>
        ensures { (s : State) → AreRunning s self.old → IsRunning s run → AreRunning s self.new }
    {
        let upload = run.upload;
        self.claim();
        let Some(kept) = &mut self.kept else {
            return Some(upload);
        };
        match kept.push(upload, run) {
            Ok(Some((forgotten, _))) => Some(forgotten),
            Ok(None) => None,
            Err(_) => Some(upload),
        }
    }

    // Claims what the first one needs beside its own memory.
    fn claim(&mut self)
        ensures { (s : State) → AreRunning s self.old → AreRunning s self.new }
    {
        if self.kept.is_none() {
            let most = NonZeroUsize::new(MOST_RUNNING).unwrap();
            self.kept = LruCache::sparse(self.alloc, most).ok();
        }
    }

    /// Returns the number behind which the next upload of the store is to be noted, if any is: not where so many are
    /// kept that one had to give way.
    pub(crate) fn noted_up_to(&self) -> Option<u64> {
        match &self.kept {
            Some(kept) if kept.len() >= MOST_RUNNING => None,
            _ => self.noted,
        }
    }

    /// Notes the next upload of the store, or that there is none.
    pub(crate) fn note_next(&mut self, next: Option<u64>)
        ensures { (s : State) → AreRunning s self.old → AreRunning s self.new }
    {
        self.noted = next;
        if let Some(upload) = next {
            self.note(upload);
        }
    }
}
