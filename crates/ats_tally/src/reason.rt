//! What a network can't bear.

use ats_num::{Fault, Name};

/// What a network can't bear of the rows of a certificate.
#[derive(Clone, Copy, Debug, PartialEq, Eq)]
pub enum Reason {
    /// The rates of a class and those above it are more than the port's link can carry.
    Overloaded {
        /// The number of the port.
        port: u32,
        /// The class.
        class: u8,
        /// The part of a second that they take, in picoseconds.
        load: u128,
    },
    /// The wait and the port's spread are, by the clock of the bridge behind the port, longer than the maximum
    /// residence time there.
    Residence {
        /// The number of the port.
        port: u32,
        /// The class.
        class: u8,
        /// The wait plus the spread, in picoseconds, as the bridge's clock counts them.
        need: u128,
    },
    /// The bounds along the route to a listener of a stream are together over the stream's deadline.
    Deadline {
        /// The stream's name.
        stream: Name,
        /// The name of the listener's node; `None` for the stream's first listener.
        listener: Option<Name>,
        /// Their sum, in picoseconds.
        sum: u128,
    },
}

impl Fault for Reason {}
