//! The reserve of a host, of which the log tells.

use crate::hosting::HostOptions;
use dep_commands::{FileReserve, Reserve};
use dep_configuration::{ReserveState, reserve_line};
use dep_program::moment_of;
use std::io::Write;
use std::mem;
use std::time::SystemTime;

/// A reserve in a file beside the database. A line on standard error tells when it is given up, when it stands again, and that
/// it can't be taken at the start; a line that can't be written is left out.
#[derive(Drop)]
pub struct LoggedReserve<'a> {
    rt: &'a HostRuntime,
    file: FileReserve<'a, HostRuntime>,
    /// It was never to be taken yet.
    is_new: bool,
}

impl<'a> LoggedReserve<'a> {
    /// The reserve of the place, if it is to have one. It is not taken yet.
    pub fn of(rt: &'a HostRuntime, place: &'a HostOptions) -> Option<LoggedReserve<'a>> {
        if place.reserve_bytes == 0 {
            return None;
        }
        let path = place.reserve_file.as_str();
        Some(LoggedReserve {
            rt,
            file: FileReserve::new(rt.alloc(), rt, path, place.reserve_bytes),
            is_new: true,
        })
    }

    fn report(&self, state: ReserveState) {
        let moment = moment_of(SystemTime::now(self.rt)).secs();
        if let Ok(line) = reserve_line(self.rt.alloc(), moment, state) {
            let _ = self.rt.stderr().write_all(line.as_slice());
        }
    }
}

impl Reserve for LoggedReserve<'_> {
    ghost is_standing = { λ its. its.file.is_standing };

    fn is_intact(&self) -> bool {
        self.file.is_intact()
    }

    fn give_up(&mut self) {
        self.file.give_up();
        self.report(ReserveState::GivenUp);
    }

    // That it stands at the start has no line, and that it still can't be taken has one at the start alone.
    fn restore(&mut self) {
        self.file.restore();
        let is_new = mem::replace(&mut self.is_new, false);
        match (self.file.is_intact(), is_new) {
            (true, false) => self.report(ReserveState::Standing),
            (false, true) => self.report(ReserveState::NotWritten),
            _ => {}
        }
    }
}
