//! Contents that are being sent, and requests that wait.
ghost use Rattle.std.specs.Prelude.{◌≡◌, false, true, MatchOption};
ghost use Rattle.dep_hub.specs.Claims as spec;
ghost use Rattle.dep_hub.specs.Claims.{is_awaited_by};
ghost use Rattle.dep_hub.specs.Preparing.{HasTurn, HaveAtMost, IsGreatestBelow, prepared_below as spec_prepared_below};

use crate::claim::Claim;
use crate::connections::Connection;
use crate::rest::Behind;

/// Whether a content is being sent to one of them, or a request of one waits.
pub(crate) fn is_any_pending(connections: &[Connection]) -> bool
    ensures { result ≡ spec.is_any_pending connections.now }
{
    connections
        .iter()
        .any(|connection| is_pending(connection.behind))
}

/// The same where a connection has come to this, and before that nothing was pending, or something was.
pub(crate) fn still_pending(connections: &[Connection], before: bool, behind: Behind) -> bool
    requires here { spec.is_pending behind ≡ true → spec.is_any_pending connections.now ≡ true }
    requires others { before ≡ false → spec.is_pending behind ≡ false
        → spec.is_any_pending connections.now ≡ false }
    ensures { result ≡ spec.is_any_pending connections.now }
{
    if is_pending(behind) {
        return true;
    }
    if before {
        return is_any_pending(connections);
    }
    false
}

/// Whether a request of one of them waits.
pub(crate) fn is_any_waiting(connections: &[Connection]) -> bool
    ensures { result ≡ spec.is_any_waiting connections.now }
{
    connections
        .iter()
        .any(|connection| is_waiting(connection.behind))
}

/// The same where no request waits that didn't before.
pub(crate) fn still_waiting(connections: &[Connection], before: bool) -> bool
    requires { before ≡ false → spec.is_any_waiting connections.now ≡ false }
    ensures { result ≡ spec.is_any_waiting connections.now }
{
    if before {
        return is_any_waiting(connections);
    }
    false
}

fn is_waiting(behind: Behind) -> bool
    ensures { result ≡ spec.is_waiting behind }
{
    match behind {
        Behind::Waits(_) => true,
        _ => false,
    }
}

/// The place of the one whose turn it is, of those whose next request is prepared, behind the turn of a number: of those
/// below that the one with the greatest number, or where there is none the one with the greatest of all. Who connects later has
/// a greater number: its turn comes once before that of one who waits already, at most. All numbers are below `next`.
pub(crate) fn next_prepared(connections: &[Connection], last: u64, next: u64) -> Option<usize>
    ensures { MatchOption result (HaveAtMost connections.now next 0)
        (HasTurn connections.now last next) }
{
    match greatest_prepared(connections, last) {
        Some(i) => Some(i),
        None => greatest_prepared(connections, next),
    }
}

// The place of the one with the greatest number below this one, of those whose next request is prepared.
fn greatest_prepared(connections: &[Connection], below: u64) -> Option<usize>
    ensures { MatchOption result (HaveAtMost connections.now below 0)
        (IsGreatestBelow connections.now below) }
{
    let mut greatest = None;
    let mut most = 0;
    for (i, connection) in connections.iter().enumerate() {
        let number = prepared_below(below, connection);
        if number > most {
            greatest = Some(i);
            most = number;
        }
    }
    greatest
}

// The number behind that of a connection, where it is below this one and its next request is prepared.
fn prepared_below(below: u64, connection: &Connection) -> u64
    ensures { result ≡ spec_prepared_below below connection.now }
{
    match connection.behind {
        Behind::Prepares(_) if connection.number < below => connection.number + 1,
        _ => 0,
    }
}

fn is_pending(behind: Behind) -> bool
    ensures { result ≡ spec.is_pending behind }
{
    match behind {
        Behind::Content(_) | Behind::Waits(_) => true,
        _ => false,
    }
}

/// Whether a request of this claim has to wait: what takes files, for contents of these that are being sent;
/// what reads one, for requests that wait to take it. So two requests never wait for each other.
pub(crate) fn has_to_wait(connections: &[Connection], claim: Claim) -> bool
    ensures { result ≡ spec.has_to_wait connections.now claim }
{
    connections
        .iter()
        .any(|connection| is_in_the_way(claim, connection.behind))
}

/// Whether a request that waits has to wait still.
pub(crate) fn waits_on(connections: &[Connection], behind: Behind) -> bool
    ensures { result ≡ spec.waits_on connections.now behind }
{
    match behind {
        Behind::Waits(claim) => has_to_wait(connections, claim),
        _ => false,
    }
}

fn is_in_the_way(claim: Claim, behind: Behind) -> bool
    ensures { result ≡ spec.is_in_the_way claim behind }
{
    match (claim, behind) {
        (Claim::Takes(files), Behind::Content(rest)) => files.has(rest.file.object, rest.file.file),
        (Claim::Reads(object, file), Behind::Waits(Claim::Takes(files))) => files.has(object, file),
        _ => false,
    }
}

/// Whether what is being sent is the content of a file that a waiting request of one of them takes.
pub(crate) fn is_awaited(connections: &[Connection], behind: Behind) -> bool
    ensures { result ≡ is_awaited_by connections.now behind }
{
    match behind {
        Behind::Content(rest) => {
            has_to_wait(connections, Claim::Reads(rest.file.object, rest.file.file))
        }
        _ => false,
    }
}
