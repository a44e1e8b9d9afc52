//! Requests that are kept back.
ghost use Rattle.std.specs.Prelude.{◌≡◌, ◌⊎◌, List, true, IfOk, MatchOption};
ghost use Rattle.dep_message.specs.Places.{Reading};
ghost use Rattle.dep_hub.specs.Claims.{is_any_pending};
ghost use Rattle.dep_hub.specs.Looks.{SeesHead, ShowsItem, is_to_prepare as spec_is_to_prepare};
ghost use Rattle.dep_hub.specs.RepresentsOwing.{IsAnswerable, MayBeLookedAt, KeptBack};
ghost use Rattle.dep_hub.specs.declared.connections.Connection.{Connection as AConnection};
ghost use Rattle.dep_hub.specs.declared.rest.Behind.{Behind as ABehind};
ghost use Rattle.dep_hub.specs.declared.rest.Behind.TheVariants.{Nothing};

use crate::claim::{Claim, claim_of};
use crate::connections::Connection;
use crate::pending::has_to_wait;
use crate::prepared_first::is_prepared_first;
use crate::preparing::MOST_STEPS;
use crate::rest::Behind;
use dep_exchange::Site;
use dep_head::Head;
use dep_message::{Intake, Message, Preview};
use std::alloc::AllocError;

/// What a look at the next request of a connection shows.
#[derive(Clone, Copy)]
pub(crate) enum Look {
    /// Nothing is answered now, and this is behind the last reply.
    Kept(Behind),
    /// It is answered unless this claim has to wait.
    Claims(Claim),
    /// The next item may be answered.
    Free,
}

/// Looks at a request.
#[derive(Drop)]
struct Looks<'a> {
    site: &'a Site,
    /// What is behind the last reply.
    was: Behind,
    is_busy: bool,
    look: Result<Look, AllocError>,
}

impl<'a> Preview for Looks<'a> {
    ghost use Rattle.dep_hub.specs.Looks.{SeesHead};

    ghost sees = { λ before after m. IfOk after.look (SeesHead before.was before.is_busy m.head) };

    fn preview(&mut self, message: Message) -> Message {
        self.look = look_for(self.site, self.was, self.is_busy, &message.head);
        message
    }
}

/// Looks at the next request of a connection. One that is prepared first is so where it wasn't looked at before; and while
/// nothing is being sent and no request waits, its claim isn't asked for.
pub(crate) fn look_at(site: &Site, is_busy: bool, connection: &mut Connection) -> Look
    ensures same { connection.new ≡ connection.old }
    ensures shows { (connections : List AConnection) → is_busy ≡ is_any_pending connections
        → ShowsItem connections connection.old.intake connection.old.behind result }
{
    let was = connection.behind;
    match was {
        Behind::Content(_) | Behind::Broken | Behind::Prepares(_) => Look::Kept(was),
        Behind::Nothing => look_at_next(site, is_busy, was, &mut connection.intake),
        Behind::Waits(_) | Behind::Prepared => {
            if !is_busy {
                return Look::Free;
            }
            look_at_next(site, is_busy, was, &mut connection.intake)
        }
    }
}

/// What is behind the last reply from now on by what a look shows, if the next item isn't answered.
pub(crate) fn kept_by(connections: &[Connection], look: Look) -> Option<Behind>
    ensures { (reading : Reading) (was : ABehind) → ShowsItem connections.now reading was look
        → MatchOption result (IsAnswerable connections.now reading was)
        (KeptBack connections.now reading was) }
{
    match look {
        Look::Kept(behind) => Some(behind),
        Look::Free => None,
        Look::Claims(claim) => {
            if has_to_wait(connections, claim) {
                return Some(Behind::Waits(claim));
            }
            None
        }
    }
}

// Looks at the next request behind a reply that was all sent. Where memory runs out it isn't prepared any more.
fn look_at_next(site: &Site, is_busy: bool, was: Behind, intake: &mut Intake) -> Look
    requires ready { MayBeLookedAt was }
    requires asked { (was ≡ Nothing) ⊎ (is_busy ≡ true) }
    ensures same { intake.new ≡ intake.old }
    ensures shows { (connections : List AConnection) → is_busy ≡ is_any_pending connections
        → ShowsItem connections intake.old was result }
{
    let mut looks = Looks {
        site,
        was,
        is_busy,
        look: Ok(Look::Free),
    };
    // Where no request was shown, that is the look with which it began.
    let seen = intake.preview(&mut looks).and(looks.look);
    seen.unwrap_or(Look::Kept(Behind::Prepared))
}

// What is seen of a request at its head. An `Err` is lack of memory.
fn look_for(site: &Site, was: Behind, is_busy: bool, head: &Head) -> Result<Look, AllocError>
    ensures { IfOk result (SeesHead was is_busy head.now) }
{
    if is_to_prepare(site, was, head)? {
        return Ok(Look::Kept(Behind::Prepares(MOST_STEPS)));
    }
    if is_busy {
        return Ok(Look::Claims(claim_of(site, head)?));
    }
    Ok(Look::Free)
}

fn is_to_prepare(site: &Site, was: Behind, head: &Head) -> Result<bool, AllocError>
    ensures { IfOk result (λ is. is ≡ spec_is_to_prepare was head.now) }
{
    match was {
        Behind::Nothing => is_prepared_first(site, head),
        _ => Ok(false),
    }
}
