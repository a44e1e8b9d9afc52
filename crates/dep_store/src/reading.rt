//! What is read of the archive, each in a transaction of its own.

use crate::tasks::Task;
use dep_tables::{Statements, next_object};
use dep_types::{ObjectView, StoreFault};
use dep_views::load_object_view;
use std::alloc::Global;

/// The object of this number, if there is one, with its metadata and its files.
#[derive(Clone, Copy)]
pub(crate) struct ViewObject {
    pub(crate) alloc: Global,
    pub(crate) object: u64,
}

impl Task for ViewObject {
    ghost use Rattle.std.specs.Prelude.{◌≡◌};
    ghost use Rattle.dep_types.specs.State.{State};
    ghost use Rattle.dep_bag.specs.Source.{view_at};
    ghost use Rattle.dep_transactions.specs.States.{TablesRepresent};
    ghost use Rattle.dep_transactions.specs.Transactions.{OnlyReports};

    type Answer = Option<ObjectView>;

    ghost makes = { λ asked. OnlyReports (λ t found. (s : State) → TablesRepresent t s
        → found ≡ view_at s asked.object) };

    fn run<T: Statements>(&self, tx: &mut T) -> Result<Option<ObjectView>, StoreFault> {
        load_object_view(tx, self.alloc, self.object)
    }
}

/// The least number of an object above this one.
#[derive(Clone, Copy)]
pub(crate) struct NextObject {
    pub(crate) after: u64,
}

impl Task for NextObject {
    ghost use Rattle.dep_tables.specs.Edits.{IsObjectAfter};
    ghost use Rattle.dep_transactions.specs.Transactions.{OnlyReports};

    type Answer = Option<u64>;

    ghost makes = { λ asked. OnlyReports (IsObjectAfter asked.after) };

    fn run<T: Statements>(&self, tx: &mut T) -> Result<Option<u64>, StoreFault> {
        next_object(tx, self.after)
    }
}
