//! What bounds the connections of a host.
ghost use Rattle.std.specs.Prelude.{◌≡◌};
ghost use Rattle.dep_slot.specs.ConnectionStates.{is_past};

/// What bounds the connections of a host.
#[derive(Clone, Copy)]
pub struct Limits {
    /// For how many seconds a connection may be silent.
    pub idle_seconds: u64,
    /// How many bytes have to come from a client, or go to it, in as much time, as long as a request
    /// or a reply of its is under way.
    pub least_rate: u64,
    /// How many connections may come from one address.
    pub address_connections: usize,
    /// How many bytes of unfinished requests may be kept in all, beside one piece of each connection.
    /// It is to be more than the largest request has.
    pub unfinished_bytes: u64,
}

impl Limits {
    /// Whether an idle time has passed since a second.
    pub fn is_past(&self, since: u64, second: u64) -> bool
        ensures { result ≡ is_past since second self.now }
    {
        second.saturating_sub(since) > self.idle_seconds
    }
}
