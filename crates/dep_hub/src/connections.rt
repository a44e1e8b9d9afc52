//! The connections of a hub, by their numbers.
ghost use Rattle.std.specs.Prelude.{◌≡◌, ◌<◌, length, IfSome};
ghost use Rattle.dep_hub.specs.Numbers.{place_of_number};

use crate::rest::Behind;
use dep_message::Intake;
use std::marker::Model;

/// The number of a connection. A hub gives none twice.
#[derive(Clone, Copy, PartialEq, Eq)]
pub struct ConnId {
    number: u64,
}

impl Model for ConnId {
    ghost use Rattle.std.specs.Prelude.{ℕ};

    ghost Value = { ℕ };

    ghost view = { λ c. c.number };

    ghost inverse = { λ number. record { number = number } };
}

impl ConnId {
    /// The connection of this number.
    pub(crate) fn new(number: u64) -> ConnId
        ensures { result ≡ number }
    {
        ConnId { number }
    }

    /// Its number, which a hub gives from 0 on.
    pub fn number(self) -> u64
        ensures { result ≡ self }
    {
        self.number
    }
}

/// A connection, what its stream has left, and what it is still to be sent.
#[derive(Drop)]
pub(crate) struct Connection {
    pub number: u64,
    pub intake: Intake,
    /// What is still to be sent of its last reply.
    pub behind: Behind,
}

/// A connection, and where it stands in the list.
#[derive(Clone, Copy)]
pub(crate) struct ListedConnection {
    pub connection: ConnId,
    pub index: usize,
}

/// Where a connection stands in the list.
pub(crate) fn index_among(connections: &[Connection], id: ConnId) -> Option<usize>
    ensures value { result ≡ place_of_number id connections.now }
    ensures within { IfSome result (λ i. i < length connections.now) }
{
    for (i, connection) in connections.iter().enumerate() {
        if connection.number == id.number {
            return Some(i);
        }
    }
    None
}
