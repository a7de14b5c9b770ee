//! Why a stream is not admitted, or not taken out.

use ats_num::Fault;
use ats_tally::Reason;

/// Why a stream is not admitted, or not taken out.
#[derive(Clone, Copy, Debug, PartialEq, Eq)]
pub enum Denied {
    /// A stream or a flow of the network has the name.
    NameTaken,
    /// No stream of the network has the name.
    NameUnknown,
    /// As many streams are there as a network may have, or the streams would have more ports together; or, by the
    /// clocks on the stream's way, a rate or a burst of it is over the limits of a scheduler.
    Limit,
    /// No certificate holds for the network with the stream added last, for this reason.
    Because(Reason),
    /// The reason for each class from 1 to 7, where the stream has that class at each port.
    NoClass([Reason; 7]),
}

impl Fault for Denied {}
