//! Entries in the list of a port.

/// A path in the list of a port that it has.
#[derive(Clone, Copy)]
pub struct Entry {
    /// The path's slot.
    pub slot: u32,
    /// The hop at which it has the port, counted from 0.
    pub hop: usize,
}
