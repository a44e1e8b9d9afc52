//! What the words of `swordd` ask for.

use crate::replaying::replay_gathered;
use crate::store_file::work_on;
use dep_moment::Moment;
use dep_program::{Command, Gathered, Outcome, unread, words};
use dep_types::ReaderInlet;

/// Does what the words ask for. How it ended has a line on standard error, unless it was done.
pub fn run_command(rt: &HostRuntime) -> Outcome {
    let outcome = do_command(rt);
    if let Some(line) = outcome.line() {
        let _ = eprintln!(rt; "{line}");
    }
    outcome
}

fn do_command(rt: &HostRuntime) -> Outcome {
    let words = match words(rt) {
        Ok(words) => words,
        Err(error) => return unread(error.kind()),
    };
    match Command::read(&words) {
        None => Outcome::Usage,
        Some(Command::Replay { moment, base }) => replay_here(rt, moment, base),
        Some(Command::WorkOn { file, job }) => work_on(rt, file, job),
    }
}

// Over standard input and output.
fn replay_here(rt: &HostRuntime, moment: u64, base: &str) -> Outcome {
    let Ok(mut outlet) = Gathered::new(rt.alloc(), rt.stdout()) else {
        return Outcome::StoreFault;
    };
    let mut inlet = ReaderInlet::new(rt.stdin());
    replay_gathered(
        rt.alloc(),
        Moment::new(moment),
        base,
        &mut inlet,
        &mut outlet,
    )
}
