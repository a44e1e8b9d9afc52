//! What a change is made with, and the row of the object that it touches.

ghost use Rattle.std.specs.Prelude.{◌≡◌, Some, IfOk, IsTrue, length};
ghost use Rattle.dep_types.specs.Numbers.{has_room};
ghost use Rattle.dep_decisions.specs.Decisions.{count_of};

use dep_decisions::{Deposit, NewFile};
use dep_fixity::HashedOctets;
use dep_operations::View;
use dep_types::{ObjectRow, StoreFault};
use std::alloc::Global;

/// What a change is made with, beside its decision.
#[derive(Clone, Copy)]
pub(crate) struct Change<'a> {
    pub(crate) alloc: Global,
    pub(crate) view: &'a View,
    pub(crate) content: &'a HashedOctets,
}

/// New files of an object, with a number for each.
#[derive(Clone, Copy)]
pub(crate) struct NumberedFiles<'a> {
    pub(crate) change: &'a Change<'a>,
    pub(crate) files: &'a [NewFile],
    ghost room: { IsTrue (has_room change.now.view.now.next.file (length files.now)) },
}

/// A deposit, with a number for each of its files.
#[derive(Clone, Copy)]
pub(crate) struct NumberedDeposit<'a> {
    pub(crate) change: &'a Change<'a>,
    pub(crate) deposit: &'a Deposit,
    ghost room: { IsTrue (has_room change.now.view.now.next.file (count_of deposit.now)) },
}

/// The object that is touched. That none is there is a fault of the store, as the rules let no such request through.
pub(crate) fn touched_object(view: &View) -> Result<ObjectRow, StoreFault>
    ensures reported { IfOk result (λ row. view.now.object ≡ Some row) }
{
    view.object.ok_or(StoreFault::Store)
}
