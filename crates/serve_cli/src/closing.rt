//! Why no more clients are taken.

/// Why no more clients are taken.
#[derive(Clone, Copy, Debug, Drop, PartialEq, Eq)]
pub enum Close {
    /// No more come.
    NoMore,
    /// There are no numbers for more connections.
    NumbersUsed,
    /// The host failed.
    HostFault,
    /// There was no memory.
    Memory,
}
