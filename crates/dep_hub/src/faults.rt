//! Why a hub, or a connection to one, is refused.
ghost use Rattle.std.specs.Prelude.{◌≡◌};
ghost use Rattle.dep_hub.specs.Faults.{hub_fault_number, connect_fault_number};

use std::error::Error;
use std::fmt;

/// Why a hub is refused.
#[derive(Clone, Copy, Debug)]
pub enum HubFault {
    /// The configuration breaks a rule of its check.
    Config,
    /// There was no memory for the check, for the service document, or for the routes.
    Memory,
}

/// Why a connection is refused.
#[derive(Clone, Copy, Debug)]
pub enum ConnectFault {
    /// There are as many connections as there may be, or their numbers have ended.
    Full,
    /// There was no memory for it.
    Memory,
}

impl HubFault {
    /// The number of the fault, 1 or 2.
    pub fn number(self) -> u8
        ensures { result ≡ hub_fault_number self }
    {
        match self {
            HubFault::Config => 1,
            HubFault::Memory => 2,
        }
    }
}

impl ConnectFault {
    /// The number of the fault, 1 or 2.
    pub fn number(self) -> u8
        ensures { result ≡ connect_fault_number self }
    {
        match self {
            ConnectFault::Full => 1,
            ConnectFault::Memory => 2,
        }
    }
}

impl fmt::Display for HubFault {
    fn fmt<W: fmt::Write>(&self, f: &mut fmt::Formatter<W>) -> fmt::Result {
        f.write_str(match self {
            HubFault::Config => "the configuration breaks a rule",
            HubFault::Memory => "out of memory",
        })
    }
}

impl Error for HubFault {}

impl fmt::Display for ConnectFault {
    fn fmt<W: fmt::Write>(&self, f: &mut fmt::Formatter<W>) -> fmt::Result {
        f.write_str(match self {
            ConnectFault::Full => "no more connections can be opened",
            ConnectFault::Memory => "out of memory",
        })
    }
}

impl Error for ConnectFault {}
