//! References that are read before the request that brings them is answered, some at a time.
ghost use Rattle.std.specs.Prelude.{◌≡◌, ℕ, List, Some, IfOk, IsTrue};
ghost use Rattle.dep_docs_in.specs.Ahead.{IsReading};
ghost use Rattle.dep_docs_in.specs.Documents.{references_read};
ghost use Rattle.dep_docs_in.specs.Faults.{GivesRead};

use crate::document::document;
use crate::fault::DocFault;
use crate::reference::Reference;
use crate::references::{entries_of, read_references, read_some};
use dep_types::{Config, List, Octets, Text};
use serde_json::Value;
use std::alloc::{AllocError, Global};
use std::marker::Model;

/// A content of no more bytes is read at once, in about a millisecond.
const MOST_AT_ONCE: usize = 65_536;

/// So many entries are read at once of a longer one.
const ENTRIES_AT_ONCE: usize = 4_096;

/// So many calls for other contents may find one held, since a request waits for its references: as many as there are
/// connections, so that this one has had its turn.
const MOST_HELD: u32 = 1_024;

/// How far a document of references was read.
#[derive(Drop)]
pub(crate) enum ReadEntries {
    /// The references of its first entries.
    Part {
        document: Value,
        references: Vec<Reference>,
    },
    /// All of them.
    Whole(List<Reference>),
    /// It is no such document.
    Malformed,
    /// They were taken out.
    Lent,
}

/// A content, and what was read of it by a server of this base.
#[derive(Drop)]
pub(crate) struct ReadDocument {
    base: Text,
    content: Octets,
    entries: ReadEntries,
}

/// The references of one content, as far as they were read ahead of the request that brings it. They are lost with the process.
/// Contracts see nothing of them: what is read ahead changes no result.
#[derive(Drop)]
pub struct ReferencesAhead {
    read: Option<ReadDocument>,
    /// How often it was held since a part of it was read.
    held: u32,
}

impl Model for ReferencesAhead {
    ghost use Rattle.std.specs.Prelude.{IfSome};
    ghost use Rattle.dep_docs_in.specs.Ahead.{IsReading};

    ghost Value = { Unit {0} };

    ghost view = { λ _. tt };

    ghost invariant = { λ a. IfSome a.read (λ r. IsReading r.base r.content r.entries) };
}

impl ReadEntries {
    // The document is read as JSON, and none of its entries yet.
    fn begun(alloc: Global, content: &[u8]) -> Result<ReadEntries, AllocError>
        ensures { IfOk result (λ reading. (base : List ℕ) → IsReading base content.now reading) }
    {
        match document(alloc, content) {
            Ok(document) if entries_of(&document).is_some() => Ok(ReadEntries::Part {
                document,
                references: Vec::new(alloc),
            }),
            Ok(_) | Err(DocFault::Malformed) => Ok(ReadEntries::Malformed),
            Err(DocFault::Memory) => Err(AllocError),
        }
    }

    // Reads the next entries, where some may be left.
    fn go_on(self, alloc: Global, config: &Config) -> Result<ReadEntries, AllocError>
        ensures { IfOk result (λ now. (content : List ℕ) → IsReading config.now.base content self
            → IsReading config.now.base content now) }
    {
        let ReadEntries::Part {
            document,
            mut references,
        } = self
        else {
            return Ok(self);
        };
        // A document without entries isn't kept as one of which a part was read.
        let Some(entries) = entries_of(&document) else {
            return Ok(ReadEntries::Lent);
        };
        match read_some(alloc, config, entries, &mut references, ENTRIES_AT_ONCE) {
            Ok(()) if references.len() < entries.len() => Ok(ReadEntries::Part {
                document,
                references,
            }),
            Ok(()) => Ok(ReadEntries::Whole(List::from_vec(references))),
            Err(DocFault::Malformed) => Ok(ReadEntries::Malformed),
            Err(DocFault::Memory) => Err(AllocError),
        }
    }
}

impl ReadDocument {
    fn is_for(&self, config: &Config) -> bool
        ensures { IsTrue result → self.now.base ≡ config.now.base }
    {
        self.base.as_str() == config.base.as_str()
    }

    fn is_of(&self, config: &Config, content: &[u8]) -> bool
        ensures { IsTrue result
            → (self.now.base ≡ config.now.base) × (self.now.content ≡ content.now) }
    {
        self.is_for(config) && self.content.as_slice() == content
    }

    // Whether entries are left.
    fn is_part(&self) -> bool {
        matches!(self.entries, ReadEntries::Part { .. })
    }

    // Whether a request waits for what is read.
    fn is_awaited(&self) -> bool {
        !matches!(self.entries, ReadEntries::Lent)
    }
}

impl ReferencesAhead {
    /// No references of any content. It takes no memory.
    pub fn new() -> ReferencesAhead {
        ReferencesAhead {
            read: None,
            held: 0,
        }
    }

    /// Reads some entries of a long content as a document of references, for [`take`](ReferencesAhead::take), or, where another
    /// one is held, whose request comes first, of that. It returns whether more may be left. An `Err` is that of the whole document.
    pub fn read_on(
        &mut self,
        alloc: Global,
        config: &Config,
        content: &[u8],
    ) -> Result<bool, DocFault> {
        if content.len() <= MOST_AT_ONCE {
            return Ok(false);
        }
        match self.read.take() {
            Some(read) if read.is_part() && read.is_for(config) => {
                let entries = read.entries.go_on(alloc, config)?;
                self.hold(ReadDocument {
                    base: read.base,
                    content: read.content,
                    entries,
                });
                Ok(true)
            }
            Some(read) if read.is_awaited() && read.is_of(config, content) => {
                let is_malformed = matches!(read.entries, ReadEntries::Malformed);
                self.hold(read);
                if is_malformed {
                    return Err(DocFault::Malformed);
                }
                Ok(false)
            }
            Some(read) if read.is_awaited() && self.held < MOST_HELD => {
                self.read = Some(read);
                self.held += 1;
                Ok(true)
            }
            _ => {
                self.hold(ReadDocument {
                    base: Text::copied(alloc, config.base.as_str())?,
                    content: Octets::copied(alloc, content)?,
                    entries: ReadEntries::begun(alloc, content)?,
                });
                Ok(true)
            }
        }
    }

    fn hold(&mut self, read: ReadDocument)
        requires { IsReading read.base read.content read.entries }
    {
        self.read = Some(read);
        self.held = 0;
    }

    /// Returns the references of a content ([`read_references`]): those that were read ahead, which are taken out, or else they
    /// are read now.
    pub fn take(
        &mut self,
        alloc: Global,
        config: &Config,
        content: &[u8],
    ) -> Result<List<Reference>, DocFault>
        ensures { GivesRead result (references_read config.now.base content.now) }
    {
        match self.take_entries(config, content) {
            ReadEntries::Whole(references) => Ok(references),
            ReadEntries::Malformed => Err(DocFault::Malformed),
            ReadEntries::Part { .. } | ReadEntries::Lent => read_references(alloc, config, content),
        }
    }

    // Takes out what was read of a content.
    fn take_entries(&mut self, config: &Config, content: &[u8]) -> ReadEntries
        ensures { IsReading config.now.base content.now result }
    {
        match self.read.take() {
            Some(read) if read.is_of(config, content) => {
                let ReadDocument {
                    base,
                    content,
                    entries,
                } = read;
                self.read = Some(ReadDocument {
                    base,
                    content,
                    entries: ReadEntries::Lent,
                });
                entries
            }
            other => {
                self.read = other;
                ReadEntries::Lent
            }
        }
    }

    /// Puts references back that were taken out ([`take`](ReferencesAhead::take)) of a content that was read ahead.
    pub fn give_back(&mut self, config: &Config, content: &[u8], references: List<Reference>)
        requires { references_read config.now.base content.now ≡ Some references }
    {
        match self.read.take() {
            Some(read) if read.is_of(config, content) => {
                self.read = Some(ReadDocument {
                    base: read.base,
                    content: read.content,
                    entries: ReadEntries::Whole(references),
                });
            }
            other => self.read = other,
        }
    }

    /// Forgets what was read, as no request waits for it.
    pub fn forget(&mut self) {
        self.read = None;
        self.held = 0;
    }
}
