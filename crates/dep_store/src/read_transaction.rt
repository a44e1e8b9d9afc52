//! What is read in a transaction that is given back.

ghost use Rattle.std.specs.Prelude.{◌≡◌, false, Result};
ghost use Rattle.sqlite.specs.Held.{state};
ghost use Rattle.dep_types.specs.State.{State};
ghost use Rattle.dep_views.specs.Ahead.{IsAhead};
ghost use Rattle.dep_types.specs.declared.store_fault.StoreFault.{StoreFault};
ghost use Rattle.dep_tables.specs.Clauses.{StaysWithin};
ghost use Rattle.dep_store.specs.ReadTransactions.{GivesBack, ReportsFrom, ReadsOpen};

use dep_decisions::Operation;
use dep_files::find_file;
use dep_requests::prepare;
use dep_staging::{hash_ahead, next_bytes};
use dep_tables::Statements;
use dep_transactions::{Lent, check_open};
use dep_types::{Config, FileRow, StoreFault};
use dep_views::WorkAhead;
use sqlite::{Alter, Connection};
use std::alloc::Global;

/// What is read in a transaction, whatever runs the statements.
pub(crate) trait ReadTransaction {
    /// What is returned of it.
    type Answer: Drop;

    /// What it tells of a state, by what it was before and after.
    ghost reported: { Self → Self → Result Self.Answer StoreFault → State → Type 0 };

    /// Reads it.
    fn read<T: Statements>(&mut self, tx: &mut T) -> Result<Self::Answer, StoreFault>
        ensures reports { ReportsFrom (T.state tx.old) (T.state tx.new)
            (reported self.old self.new result) }
        ensures stays { StaysWithin T.lenders T.state tx.old tx.new result };
}

/// Reads it in a transaction of its own, which is given back. It fails where one is under way.
pub(crate) fn read_in_transaction<S: Alter, K: ReadTransaction>(
    connection: &mut Connection<S>,
    what: &mut K,
) -> Result<K::Answer, StoreFault>
    ensures { GivesBack (state S.Store connection.old) (state S.Store connection.new)
        (K.reported what.old what.new result) }
{
    if !connection.is_autocommit() {
        return Err(StoreFault::Store);
    }
    let mut tx = connection.transaction();
    let answer = what.read(&mut Lent { tx: &mut tx });
    tx.rollback();
    answer
}

/// Reads it so, and looks whether the store is open then: the end of the transaction may have shut it.
pub(crate) fn read_if_open<S: Alter, K: ReadTransaction>(
    connection: &mut Connection<S>,
    what: &mut K,
) -> Result<K::Answer, StoreFault>
    requires settled { (state S.Store connection.old).in_transaction ≡ false }
    ensures { ReadsOpen (state S.Store connection.old) (state S.Store connection.new)
        (K.reported what.old what.new) result }
{
    let answer = read_in_transaction(connection, what)?;
    check_open(connection).and(Ok(answer))
}

/// A few blocks of uploads are hashed, before an object is made of them. Returns whether more may be left.
impl ReadTransaction for WorkAhead {
    ghost use Rattle.dep_views.specs.Ahead.{IsAhead};

    type Answer = bool;

    ghost reported = { λ before after more s. IsAhead s before → IsAhead s after };

    fn read<T: Statements>(&mut self, tx: &mut T) -> Result<bool, StoreFault> {
        hash_ahead(tx, &mut self.hashes)
    }
}

/// A part of what the answer to a request needs is done. Returns whether more may be left.
#[derive(Drop)]
pub(crate) struct Preparation<'a> {
    pub(crate) alloc: Global,
    pub(crate) ahead: &'a mut WorkAhead,
    pub(crate) config: &'a Config,
    pub(crate) operation: &'a Operation<'a>,
}

impl ReadTransaction for Preparation<'_> {
    ghost use Rattle.std.specs.Prelude.{◌≡◌};
    ghost use Rattle.dep_views.specs.Ahead.{IsAhead};

    type Answer = bool;

    // What is lent is the same after it.
    ghost reported = { λ before after more s. (after.ahead.ghost_name ≡ before.ahead.ghost_name)
        × (IsAhead s before.ahead.now → IsAhead s after.ahead.now) };

    fn read<T: Statements>(&mut self, tx: &mut T) -> Result<bool, StoreFault> {
        prepare(tx, self.alloc, self.ahead, self.config, self.operation)
    }
}

/// The row of a file, if there is one.
#[derive(Clone, Copy)]
pub(crate) struct FindFile {
    pub(crate) object: u64,
    pub(crate) file: u64,
}

impl ReadTransaction for FindFile {
    ghost use Rattle.std.specs.Prelude.{IfOk, option_map};
    ghost use Rattle.dep_types.specs.Rows.{file_row};
    ghost use Rattle.dep_types.specs.State.{file_at};

    type Answer = Option<FileRow>;

    ghost reported = { λ before after result s. IfOk result
        (λ found. found ≡ option_map (file_row before.object before.file)
        (file_at s before.object before.file)) };

    fn read<T: Statements>(&mut self, tx: &mut T) -> Result<Option<FileRow>, StoreFault> {
        find_file(tx, self.object, self.file)
    }
}

/// The next bytes of the content of a file that is there, behind so many.
#[derive(Clone, Copy)]
pub(crate) struct NextBytes {
    pub(crate) alloc: Global,
    pub(crate) file: u64,
    pub(crate) start: u64,
}

impl ReadTransaction for NextBytes {
    ghost use Rattle.std.specs.Prelude.{IfOk};
    ghost use Rattle.dep_staging.specs.NextBytes.{IsNextIn};

    type Answer = Vec<u8>;

    ghost reported = { λ before after result s. IfOk result
        (λ bytes. IsNextIn s before.file before.start bytes.items) };

    fn read<T: Statements>(&mut self, tx: &mut T) -> Result<Vec<u8>, StoreFault> {
        next_bytes(tx, self.alloc, self.file, self.start)
    }
}
