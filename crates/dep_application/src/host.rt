//! What the words of `swordd_host` ask for.

use crate::hosting::serve_store;
use crate::start::{KIT, VERSION};
use dep_configuration::{
    Configuration, ConfigurationFault, EXAMPLE, check_folders, explain, print_configuration,
};
use dep_program::{HostCommand, Outcome, words};
use std::fmt::Display;
use std::{fs, io};

const USAGE: &str =
    "usage: swordd_host CONFIGURATION | --example | --check CONFIGURATION | --version";

/// Does what the words ask for, and prints on standard error why it wasn't done.
pub fn run_host(rt: &HostRuntime) -> Outcome {
    let Ok(words) = words(rt) else {
        return usage(rt);
    };
    match HostCommand::read(&words) {
        None => usage(rt),
        Some(HostCommand::Example) => print_example(rt),
        Some(HostCommand::Version) => print_version(rt),
        Some(HostCommand::Check(file)) => check_file(rt, file),
        Some(HostCommand::Serve(file)) => match configuration_to_serve(rt, file) {
            Ok(configuration) => serve_store(rt, configuration),
            Err(outcome) => outcome,
        },
    }
}

fn usage(rt: &HostRuntime) -> Outcome {
    let _ = eprintln!(rt; "{USAGE}");
    Outcome::Usage
}

// Prints a configuration, and to standard error what its fields are for.
fn print_example(rt: &HostRuntime) -> Outcome {
    let mut lines = String::new(rt.alloc());
    if explain(&mut lines).is_err() {
        let _ = eprintln!(rt; "swordd_host: out of memory");
        return Outcome::StoreFault;
    }
    let _ = eprint!(rt; "{lines}");
    outcome_printed(rt, &print!(rt; "{EXAMPLE}"))
}

fn print_version(rt: &HostRuntime) -> Outcome {
    let printed = println!(rt; "swordd_host {VERSION}, {KIT}");
    outcome_printed(rt, &printed)
}

// How it ends once something was printed, or wasn't.
fn outcome_printed(rt: &HostRuntime, printed: &io::Result<()>) -> Outcome {
    match printed {
        Ok(()) => Outcome::Done,
        Err(_) => {
            let _ = eprintln!(rt; "swordd_host: standard output can't be written");
            Outcome::TransferFault
        }
    }
}

// Prints the configuration, if it can be served.
fn check_file(rt: &HostRuntime, file: &str) -> Outcome {
    match configuration_in(rt, file) {
        Ok(configuration) => {
            let outcome = print_checked(rt, &configuration);
            drop(configuration);
            outcome
        }
        Err(outcome) => outcome,
    }
}

fn print_checked(rt: &HostRuntime, configuration: &Configuration) -> Outcome {
    outcome_printed(rt, &print_configuration(&mut rt.stdout(), configuration))
}

// The configuration in a file, unless the server is told to stop before it begins.
fn configuration_to_serve(rt: &HostRuntime, file: &str) -> Result<Configuration, Outcome> {
    match configuration_in(rt, file) {
        Ok(configuration) if is_stopped(rt, &configuration) => {
            drop(configuration);
            report(
                rt,
                file,
                &"stop_file: the file is there, which tells the server to stop",
            );
            Err(Outcome::Usage)
        }
        read => read,
    }
}

// Whether the file by which the server is told to stop is there before it begins.
fn is_stopped(rt: &HostRuntime, configuration: &Configuration) -> bool {
    fs::exists(rt, configuration.stop_file.as_str()).unwrap_or(false)
}

// The configuration in a file, whose folders are there. A fault is printed, by the field that it is of.
fn configuration_in(rt: &HostRuntime, file: &str) -> Result<Configuration, Outcome> {
    let Ok(text) = fs::read_to_string(rt, file) else {
        report(rt, file, &"the file can't be read");
        return Err(Outcome::Usage);
    };
    let read = Configuration::read(rt.alloc(), text.as_str());
    drop(text);
    match read {
        Ok(configuration) => with_folders(rt, file, configuration),
        Err(fault) => {
            report(rt, file, &fault);
            Err(outcome_of(&fault))
        }
    }
}

// The same configuration, whose folders are there.
fn with_folders(
    rt: &HostRuntime,
    file: &str,
    configuration: Configuration,
) -> Result<Configuration, Outcome> {
    match check_folders(rt, &configuration) {
        Ok(()) => Ok(configuration),
        Err(fault) => {
            drop(configuration);
            report(rt, file, &fault);
            Err(Outcome::Usage)
        }
    }
}

// Prints what is wrong with a file.
fn report<F: Display>(rt: &HostRuntime, file: &str, fault: &F) {
    let _ = eprintln!(rt; "swordd_host: {file}: {fault}");
}

// How it ends where a configuration is refused.
fn outcome_of(fault: &ConfigurationFault) -> Outcome {
    match fault {
        ConfigurationFault::Memory => Outcome::StoreFault,
        _ => Outcome::Usage,
    }
}
