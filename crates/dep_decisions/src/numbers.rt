//! How many numbers a decision takes.
ghost use Rattle.std.specs.Prelude.{◌≡◌};
ghost use Rattle.dep_types.specs.Numbers.{numbers};
ghost use Rattle.dep_decisions.specs.Decisions.{count_of, numbers_for};

use crate::decision::{Decision, Deposit};
use dep_types::Counters;

/// Returns how many numbers of each kind a decision takes. It takes no memory.
pub fn numbers_for(decision: &Decision) -> Counters
    ensures { result ≡ numbers_for decision.now }
{
    match decision {
        Decision::Create { deposit, .. } => numbers(1, count(deposit), 0, 1),
        Decision::Append { deposit, .. } => numbers(0, count(deposit), 0, 1),
        Decision::Replace { deposit, .. } => numbers(0, count(deposit), 0, 1),
        Decision::SetFiles { files, .. } => numbers(0, files.as_slice().len() as u64, 0, 1),
        Decision::Complete { .. }
        | Decision::SetMetadata { .. }
        | Decision::SetFile { .. }
        | Decision::DropFile { .. } => numbers(0, 0, 0, 1),
        Decision::Open(_) => numbers(0, 0, 1, 0),
        Decision::Show
        | Decision::DropObject { .. }
        | Decision::Receive { .. }
        | Decision::DropUpload { .. } => numbers(0, 0, 0, 0),
    }
}

fn numbers(object: u64, file: u64, upload: u64, change: u64) -> Counters
    ensures { result ≡ numbers object file upload change }
{
    Counters {
        object,
        file,
        upload,
        change,
    }
}

// How many files a deposit adds.
fn count(deposit: &Deposit) -> u64
    ensures { result ≡ count_of deposit.now }
{
    match deposit {
        Deposit::Files(files) => files.as_slice().len() as u64,
        Deposit::Metadata(_) => 0,
    }
}
