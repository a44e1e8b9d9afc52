//! What a store caches, and whether it is open, by a statement that was to be prepared.

ghost use Rattle.dep_store.specs.Shut.{ReportsPrepared};

use crate::read_transaction::ReadTransaction;
use dep_answers::StoredFile;
use dep_requests::{Cache, read_still};
use dep_tables::{Statements, fault_of};
use dep_types::{Config, StoreFault};
use sqlite::{Error, ErrorCode};

/// What a store knows without a look at its tables. A call that may change them begins with nothing known.
#[derive(Clone, Copy)]
pub(crate) struct Known {
    pub(crate) cache: Option<Cache>,
    /// The file whose content the last reply has.
    pub(crate) shown: Option<StoredFile>,
}

impl Known {
    pub(crate) const NOTHING: Known = Known {
        cache: None,
        shown: None,
    };
}

/// What it means whether a statement was prepared: that the store is open, that it was shut, or why that isn't known.
pub(crate) fn reported_by(probed: Result<(), Error>) -> Result<bool, StoreFault>
    ensures { ReportsPrepared probed result }
{
    match probed {
        Ok(()) => Ok(true),
        Err(Error::SqliteFailure(ErrorCode::Closed)) => Ok(false),
        Err(other) => Err(fault_of(other)),
    }
}

/// What may be cached, where a tick at this moment changes nothing.
#[derive(Clone, Copy)]
pub(crate) struct Still<'a> {
    pub(crate) config: &'a Config,
    pub(crate) moment: u64,
}

impl<'a> ReadTransaction for Still<'a> {
    ghost use Rattle.std.specs.Prelude.{IfOk};
    ghost use Rattle.dep_store.specs.Caching.{MayCache};

    type Answer = Option<Cache>;

    ghost reported = { λ asked after result s. IfOk result (MayCache asked.config.now asked.moment s) };

    fn read<T: Statements>(&mut self, tx: &mut T) -> Result<Option<Cache>, StoreFault> {
        read_still(tx, self.config, self.moment)
    }
}
