//! A store as a source of bags.

use crate::store::Store;
use dep_bag::BagSource;
use dep_types::{ObjectView, Outlet, StoreFault, StreamFault};
use sqlite::Alter;

impl<S: Alter> BagSource for Store<S> {
    ghost use Rattle.dep_transactions.proofs.Transacting.{leaves_as_was};
    ghost use Rattle.dep_store.specs.Archive.{condition_of};

    ghost condition = { condition_of S.Store };

    fn view(&mut self, object: u64) -> Result<Option<ObjectView>, StoreFault> {
        Store::view(self, object)
    }

    fn stream<O: Outlet>(&mut self, file: u64, out: &mut O) -> Result<(), StreamFault> {
        Store::stream(self, file, out)
    }

    ghost settled = { λ store s represents. leaves_as_was _ s
        (λ trees h. S.Store.settled store.store trees represents.represents.is_open h) represents };
}
