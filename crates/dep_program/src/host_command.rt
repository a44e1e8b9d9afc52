//! The words of the command line of `swordd_host`.
ghost use Rattle.std.specs.Prelude.{◌≡◌, map, string_bytes, option_map};
ghost use Rattle.dep_program.specs.HostCommands as spec;

/// What the words ask for.
#[derive(Clone, Copy)]
pub enum HostCommand<'a> {
    /// The store that a configuration file names is served.
    Serve(&'a str),
    /// What would be served is printed.
    Check(&'a str),
    /// A configuration file is printed in which each field is explained.
    Example,
    /// The version of the program is printed.
    Version,
}

impl<'a> HostCommand<'a> {
    /// Reads the words after the program's name. There is no command where they are none of these.
    pub fn read(words: &'a [String]) -> Option<HostCommand<'a>>
        ensures { option_map spec.asked_in result ≡ spec.asked_of (map string_bytes words.now) }
    {
        match words {
            [word] => of_one(word.as_str()),
            [word, file] if word.as_str() == "--check" => Some(HostCommand::Check(file.as_str())),
            _ => None,
        }
    }
}

fn of_one<'a>(word: &'a str) -> Option<HostCommand<'a>>
    ensures { option_map spec.asked_in result ≡ spec.asked_of_one word.now }
{
    match word {
        "--example" => Some(HostCommand::Example),
        "--version" => Some(HostCommand::Version),
        _ => match word.as_bytes().first() {
            // An option is no name of a file.
            Some(b'-') => None,
            _ => Some(HostCommand::Serve(word)),
        },
    }
}
