//! How a run of the program ended.
ghost use Rattle.std.specs.Prelude.{◌≡◌};
ghost use Rattle.std.specs.Option.{option_copied};
ghost use Rattle.dep_program.specs.Outcomes.{status_of, outcome_line, outcome_of, outcome_sent};

use dep_connection::Served;

/// How a run of the program ended.
#[derive(Clone, Copy)]
pub enum Outcome {
    /// What was asked for was done.
    Done,
    /// The words are wrong, or the configuration is refused.
    Usage,
    /// There is no such object.
    NoSuchObject,
    /// The store failed, or there was no memory.
    StoreFault,
    /// The input or the output failed, or the input went on for too many reads.
    TransferFault,
    /// An audit was done, and found files whose bytes are not those that were deposited.
    Damaged,
}

const USAGE: &str =
    "usage: swordd replay MOMENT BASE | serve PORT DB COUNT | export DB ID DIR | audit DB";

impl Outcome {
    /// The exit status of the program.
    pub fn status(self) -> u8
        ensures { result ≡ status_of self }
    {
        match self {
            Outcome::Done => 0,
            Outcome::Usage | Outcome::NoSuchObject => 1,
            Outcome::StoreFault => 2,
            Outcome::TransferFault => 3,
            Outcome::Damaged => 4,
        }
    }

    /// The line on standard error, where there is one.
    pub fn line(self) -> Option<&'static str>
        ensures { option_copied result ≡ outcome_line self }
    {
        match self {
            Outcome::Done | Outcome::Damaged => None,
            Outcome::Usage => Some(USAGE),
            Outcome::NoSuchObject => Some("swordd: no such object"),
            Outcome::StoreFault => Some("swordd: store fault"),
            Outcome::TransferFault => Some("swordd: input or output fault"),
        }
    }
}

/// Returns the outcome of a run that served one connection.
pub fn outcome_of(served: Served) -> Outcome
    ensures { result ≡ outcome_of served }
{
    match served {
        Served::Ended | Served::Closed => Outcome::Done,
        Served::Unserved => Outcome::StoreFault,
        Served::ReadFault | Served::WriteFault | Served::Bound => Outcome::TransferFault,
    }
}

/// Returns the outcome, but `TransferFault` in place of `Done` where the outlet gave up.
pub fn outcome_sent(has_failed: bool, outcome: Outcome) -> Outcome
    ensures { result ≡ outcome_sent has_failed outcome }
{
    match (has_failed, outcome) {
        (true, Outcome::Done) => Outcome::TransferFault,
        (_, outcome) => outcome,
    }
}
