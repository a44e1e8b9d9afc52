//! What is done for a request, in a transaction of its own.

ghost use Rattle.std.specs.Prelude.{◌≡◌, false, IfOk, IsTrue};
ghost use Rattle.sqlite.specs.Held.{state};
ghost use Rattle.dep_requests.specs.Performing.{IsDone};
ghost use Rattle.dep_requests.specs.Performing as within;
ghost use Rattle.dep_requests.specs.Caching.{is_plain_read};
ghost use Rattle.dep_transactions.specs.OpenTables.{StaysOn};
ghost use Rattle.dep_transactions.specs.Performing.{IsDoneAlone, KeepsWorkAhead, StepsAlone, StepsOver, ReportsChanges, IsBackUnchanged};
ghost use Rattle.dep_transactions.specs.Transactions.{Transacts};

use crate::committing::{commit, give_back};
use crate::lending::Lent;
use crate::probing::check_open;
use dep_answers::Service;
use dep_decisions::Operation;
use dep_requests::{Done, answer_operation, is_plain_read};
use dep_types::StoreFault;
use dep_views::WorkAhead;
use sqlite::{Alter, Connection, Transaction};
use std::alloc::Global;

/// Lends the transaction to `answer_operation` and takes it back, so that its clauses are bound to the connection here, and not
/// at each end of `perform_request`. A request that only reads is given nothing that was hashed.
fn answer_within<S: Alter>(
    tx: &mut Transaction<'_, S>,
    alloc: Global,
    ahead: &mut WorkAhead,
    service: &Service,
    operation: &Operation<'_>,
) -> Result<Done, StoreFault>
    ensures does { IfOk result (IsDone (state S.Store tx.old.conn.now) (state S.Store tx.new.conn.now)
        service.now operation.now ahead.old) }
    ensures ahead { within.KeepsAhead (state S.Store tx.old.conn.now)
        (state S.Store tx.new.conn.now) ahead.old ahead.new }
    ensures plain { IsTrue (is_plain_read operation.now) → IfOk result
        (IsDoneAlone (state S.Store tx.old.conn.now) (state S.Store tx.new.conn.now)
        service.now operation.now) }
    ensures stays { StaysOn S.Store tx.old.conn tx.new.conn result }
{
    if is_plain_read(operation) {
        let mut none = WorkAhead::new(alloc);
        return answer_operation(&mut Lent { tx }, alloc, &mut none, service, operation);
    }
    answer_operation(&mut Lent { tx }, alloc, ahead, service, operation)
}

/// Begins the transaction of a request, and ends it: it is committed, or given back where nothing was changed. The reply is made
/// before the commit.
/// A fault of the store, also of the commit, and lack of memory leave the tables as they were. What was hashed for it stays
/// known, whatever is returned.
pub fn perform_request<S: Alter>(
    connection: &mut Connection<S>,
    alloc: Global,
    ahead: &mut WorkAhead,
    service: &Service,
    operation: &Operation<'_>,
) -> Result<Done, StoreFault>
    requires settled { (state S.Store connection.old).in_transaction ≡ false }
    ensures transacts { Transacts (state S.Store connection.old) (state S.Store connection.new) result
        (StepsOver service.now operation.now ahead.old) }
    // A request that only reads needs nothing that was hashed.
    ensures plain { IsTrue (is_plain_read operation.now)
        → Transacts (state S.Store connection.old) (state S.Store connection.new) result
        (StepsAlone service.now operation.now) }
    ensures changes { ReportsChanges (state S.Store connection.old) (state S.Store connection.new) result
        service.now operation.now ahead.old }
    ensures ahead { KeepsWorkAhead (state S.Store connection.old) (state S.Store connection.new)
        ahead.old ahead.new }
    ensures back { IsBackUnchanged (state S.Store connection.old) (state S.Store connection.new) result }
{
    let _between = connection.is_autocommit();
    let mut tx = connection.transaction();
    let performed = answer_within(&mut tx, alloc, ahead, service, operation)?;
    if performed.has_changes {
        return commit(tx).and(Ok(performed));
    }
    give_back(tx);
    check_open(connection).and(Ok(performed))
}
