//! The words of the command line of `swordd`.
ghost use Rattle.std.specs.Prelude.{◌≡◌, map, string_bytes, option_map};
ghost use Rattle.dep_octets.specs.Octets.{decimal_number, value_of};
ghost use Rattle.dep_program.specs.Commands.{asked_in, asked_of, replay_of, serve_of, export_of, audit_of, from_one, unread_outcome};

use crate::outcome::Outcome;
use dep_octets::{Number, decimal, positive_decimal};
use dep_types::GREATEST_NUMBER;
use std::env;
use std::io::{self, ErrorKind};

/// What the words ask for.
#[derive(Drop)]
pub enum Command<'a> {
    /// One connection over standard input and output, each piece at this moment, in seconds since 1970.
    Replay { moment: u64, base: &'a str },
    /// The job over the store in the file.
    WorkOn { file: &'a str, job: Job<'a> },
}

/// Where connections come from, and how many.
#[derive(Clone, Copy)]
pub struct ListenOptions {
    /// The port, of 127.0.0.1.
    pub port: u16,
    /// How many connections are served.
    pub count: u64,
}

/// What is done with the store in a file.
#[derive(Clone, Copy)]
pub enum Job<'a> {
    /// Connections are served.
    Serve(ListenOptions),
    /// The bag of an object goes into a new folder.
    Export { object: u64, folder: &'a str },
    /// All files are checked.
    Audit,
}

const GREATEST_PORT: u64 = 65_535;

const MOST_SERVED: u64 = 1_000_000;

impl<'a> Command<'a> {
    /// Reads the words after the program's name. There is no command where a word is wrong, missing or
    /// one too many, or a number is outside its range.
    pub fn read(words: &'a [String]) -> Option<Command<'a>>
        ensures { option_map asked_in result ≡ asked_of (map string_bytes words.now) }
    {
        let (name, words) = words.split_first()?;
        match name.as_str() {
            "replay" => read_replay(words),
            "serve" => read_serve(words),
            "export" => read_export(words),
            "audit" => read_audit(words),
            _ => None,
        }
    }
}

fn read_replay<'a>(words: &'a [String]) -> Option<Command<'a>>
    ensures { option_map asked_in result ≡ replay_of (map string_bytes words.now) }
{
    let [moment, base] = words else {
        return None;
    };
    // A moment is in whole seconds since 1970, of digits up to 2^64 - 1.
    match decimal(moment.as_bytes(), u64::MAX) {
        Number::Value(moment) => Some(Command::Replay {
            moment,
            base: base.as_str(),
        }),
        Number::NotDigits | Number::Above => None,
    }
}

fn read_serve<'a>(words: &'a [String]) -> Option<Command<'a>>
    ensures { option_map asked_in result ≡ serve_of (map string_bytes words.now) }
{
    let [port, file, count] = words else {
        return None;
    };
    let options = ListenOptions {
        port: number_in(port.as_str(), GREATEST_PORT)? as u16,
        count: number_in(count.as_str(), MOST_SERVED)?,
    };
    Some(Command::WorkOn {
        file: file.as_str(),
        job: Job::Serve(options),
    })
}

fn read_export<'a>(words: &'a [String]) -> Option<Command<'a>>
    ensures { option_map asked_in result ≡ export_of (map string_bytes words.now) }
{
    let [file, object, folder] = words else {
        return None;
    };
    let job = Job::Export {
        object: positive_decimal(object.as_bytes(), GREATEST_NUMBER)?,
        folder: folder.as_str(),
    };
    Some(Command::WorkOn {
        file: file.as_str(),
        job,
    })
}

fn read_audit<'a>(words: &'a [String]) -> Option<Command<'a>>
    ensures { option_map asked_in result ≡ audit_of (map string_bytes words.now) }
{
    let [file] = words else {
        return None;
    };
    Some(Command::WorkOn {
        file: file.as_str(),
        job: Job::Audit,
    })
}

/// A number from 1 to the greatest.
fn number_in(word: &str, most: u64) -> Option<u64>
    ensures { result ≡ from_one (value_of (decimal_number word.now most)) }
{
    match decimal(word.as_bytes(), most) {
        Number::Value(0) => None,
        Number::Value(number) => Some(number),
        Number::NotDigits | Number::Above => None,
    }
}

/// The words after the program's name.
pub fn words(rt: &HostRuntime) -> io::Result<Vec<String>> {
    Ok(env::args(rt)?.skip(1).collect(rt.alloc())?)
}

/// Returns the outcome where the words can't be had: `StoreFault` for lack of memory, else `Usage`, as at a word
/// that isn't UTF-8.
pub fn unread(kind: ErrorKind) -> Outcome
    ensures { result ≡ unread_outcome kind }
{
    match kind {
        ErrorKind::OutOfMemory => Outcome::StoreFault,
        _ => Outcome::Usage,
    }
}
