//! What is still to be sent of a reply.

ghost use Rattle.std.specs.Prelude.{◌≡◌};
ghost use Rattle.dep_hub.specs.Owed.{behind_then, later_than, told_then};

use crate::claim::Claim;
use crate::sent_on::SentOn;
use dep_exchange::Rest;
use dep_types::StreamFault;

/// What is behind the last reply of a connection.
#[derive(Clone, Copy)]
pub(crate) enum Behind {
    /// All of it was sent.
    Nothing,
    /// The rest of a content is sent, and then the next item answered.
    Content(Rest),
    /// A fault broke it off, and nothing more is sent.
    Broken,
    /// All of it was sent, and the next request waits, which has this claim.
    Waits(Claim),
    /// All of it was sent, and the next request is prepared, in so many steps more at most.
    Prepares(u32),
    /// All of it was sent, and the next request is prepared for no more.
    Prepared,
}

/// What is behind a reply of which this is sent later.
pub(crate) fn behind_of(rest: Option<Rest>) -> Behind
    ensures { result ≡ later_than rest }
{
    match rest {
        Some(rest) => Behind::Content(rest),
        None => Behind::Nothing,
    }
}

/// What is behind a reply once a few blocks more of its content were sent, and what came of that.
pub(crate) fn left_of(rest: Rest, streamed: Result<Option<u64>, StreamFault>) -> (Behind, SentOn)
    ensures behind { result.0 ≡ behind_then rest streamed }
    ensures told { result.1 ≡ told_then streamed }
{
    match streamed {
        Ok(Some(sent)) => {
            let left = Rest {
                file: rest.file,
                sent,
            };
            (Behind::Content(left), SentOn::Part)
        }
        Ok(None) => (Behind::Nothing, SentOn::All),
        Err(_) => (Behind::Broken, SentOn::Broken),
    }
}
