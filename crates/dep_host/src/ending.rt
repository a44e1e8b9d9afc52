//! When a host is shut, and why.

/// Why a host is shut.
#[derive(Clone, Copy)]
pub enum Cause {
    /// It was told that a fault has shut its store.
    Store,
    /// It was told to stop.
    Stop,
}

/// That a host is shut: it lets nobody in and reads nothing. What it read it answers still, and closes each
/// connection once its replies are out.
#[derive(Clone, Copy)]
pub struct Shut {
    /// The second at which it was told so.
    pub second: u64,
    pub cause: Cause,
}
