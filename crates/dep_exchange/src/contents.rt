//! How the content of a file goes out behind the front of a reply.
ghost use Rattle.std.specs.Prelude.{◌≡◌, None, IfSome, OnOk};
ghost use Rattle.dep_exchange.specs.Archives.{KeepsState};
ghost use Rattle.dep_exchange.specs.Owing.{SendsContent, TakesSome, rest_of};

use crate::archive::Archive;
use crate::rest::Rest;
use dep_answers::StoredFile;
use dep_types::{Outlet, StreamFault};

/// How the content of a file goes out behind the front of a reply.
#[derive(Clone, Copy)]
pub enum Contents {
    /// All of it, at once.
    AtOnce,
    /// In steps, behind the answer.
    InSteps,
}

impl Contents {
    /// Sends a content, or finds its file, so that it can be sent later. It returns what is sent later.
    pub(crate) fn deliver<A: Archive, O: Outlet>(
        self,
        store: &mut A,
        it: StoredFile,
        out: &mut O,
    ) -> Result<Option<Rest>, StreamFault>
        ensures sends { SendsContent (A.condition store.old) (A.condition store.new)
            (O.taken out.old) (O.taken out.new) it result }
        ensures begins { IfSome (rest_of result) (λ r. r.file ≡ it) }
        ensures at_once { self ≡ Contents.AtOnce → rest_of result ≡ None }
        ensures does { KeepsState (A.condition store.old) (A.condition store.new) result }
        ensures takes { TakesSome (O.taken out.old) (O.taken out.new) }
        ensures kept { OnOk result (O.failures out.new ≡ O.failures out.old) }
    {
        match self {
            Contents::AtOnce => {
                store.stream(it.file, out)?;
                Ok(None)
            }
            Contents::InSteps => {
                store.begin(it)?;
                Ok(Some(Rest { file: it, sent: 0 }))
            }
        }
    }
}
