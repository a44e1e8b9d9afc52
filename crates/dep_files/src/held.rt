//! What is read of an object ahead of the request that shows it, and held for it.

ghost use Rattle.std.specs.Prelude.{◌≡◌, None, Some, IfSome};
ghost use Rattle.dep_files.specs.Held.{read_part};

use dep_types::ObjectRow;

/// So many requests for other objects may be passed over, one after another, while one object is read: as many as there are
/// connections, so that the request for which it is read has had its turn.
const MOST_PASSED_OVER: u32 = 1_024;

/// What was read of one state of an object.
#[derive(Drop)]
pub struct ReadPart<P> {
    /// The number of the object.
    pub object: u64,
    /// The object's tag: once the object is changed it has another.
    pub tag: u64,
    /// What was read.
    pub part: P,
}

/// What was read of one object at a time, for the request that waits for it. It is lost with the process.
#[derive(Drop)]
pub struct Held<P> {
    read: Option<ReadPart<P>>,
    /// How many requests for other objects were passed over since a part of it was read.
    passed_over: u32,
}

impl<P: Drop> Held<P> {
    /// Nothing. It takes no memory.
    pub fn nothing() -> Held<P>
        ensures { result.read ≡ None }
    {
        Held {
            read: None,
            passed_over: 0,
        }
    }

    /// Forgets what is held, as no request waits for it.
    pub fn forget(&mut self)
        ensures { self.new.read ≡ None }
    {
        self.read = None;
        self.passed_over = 0;
    }

    /// Holds this of the object of the row, in place of what was held.
    pub fn put(&mut self, row: &ObjectRow, part: P)
        ensures { self.new.read ≡ Some (read_part row.now part) }
    {
        self.read = Some(ReadPart {
            object: row.object,
            tag: row.object_tag,
            part,
        });
        self.passed_over = 0;
    }

    /// Takes out what is held of the object of the row, as long as it has that tag.
    pub fn take(&mut self, row: &ObjectRow) -> Option<P>
        ensures kept { result ≡ None → self.new.read ≡ self.old.read }
        ensures taken { IfSome result (λ part. (self.old.read ≡ Some (read_part row.now part))
            × (self.new.read ≡ None)) }
    {
        match self.read.take() {
            Some(read) if read.object == row.object && read.tag == row.object_tag => {
                Some(read.part)
            }
            other => {
                self.read = other;
                None
            }
        }
    }

    /// Whether a request for the object of the row is passed over, since another object is held, whose request comes first.
    pub fn passes_over(&mut self, row: &ObjectRow) -> bool
        ensures { self.new.read ≡ self.old.read }
    {
        match &self.read {
            Some(read) if read.object != row.object && self.passed_over < MOST_PASSED_OVER => {
                self.passed_over += 1;
                true
            }
            _ => false,
        }
    }
}
