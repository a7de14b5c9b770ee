//! Why a certificate does not hold for a network.

use ats_num::Fault;
use ats_tally::Reason;

/// A column of a certificate that follows from the network, or from the network and the wait.
#[derive(Clone, Copy, Debug, PartialEq, Eq)]
pub enum Field {
    /// The load of the higher classes.
    Higher,
    /// The load of the class itself.
    Equal,
    /// The bursts of both.
    Bursts,
    /// The longest frame of a lower class.
    Lower,
    /// The shortest frame of the class.
    Least,
    /// The bound.
    Bound,
}

/// Why a certificate does not hold: the first clause that fails, and there the first row in the order of ports and
/// classes, the first field or the first stream. The clauses are asked in this order: a row is missing, a row is stray,
/// a field is wrong, a load is more than the link can carry, a wait is too small, a wait and its port's spread are
/// together longer than the maximum residence time behind the port, a sum is over its stream's deadline.
#[derive(Clone, Copy, Debug, PartialEq, Eq)]
pub enum Refusal {
    /// Some stream of the class uses the port, and there is no row for them.
    RowMissing {
        /// The number of the port.
        port: u32,
        /// The class.
        class: u8,
    },
    /// There is a row for a port and a class, and no stream of the class uses the port.
    RowStray {
        /// The number of the port.
        port: u32,
        /// The class.
        class: u8,
    },
    /// A field does not have the value that the network, or for the bound the row's wait, gives it.
    FieldWrong {
        /// The number of the port.
        port: u32,
        /// The class.
        class: u8,
        /// The field.
        field: Field,
        /// The right value.
        right: u128,
    },
    /// The wait is too short.
    WaitTooSmall {
        /// The number of the port.
        port: u32,
        /// The class.
        class: u8,
        /// The least wait that is enough, in picoseconds.
        least_wait: u128,
    },
    /// A load, a wait or a sum is more than the network can bear.
    Network(Reason),
}

impl Fault for Refusal {}
