//! Why a stream or a flow can't be added to a network.

use ats_num::Fault;
use std::error::Error;
use std::fmt;

/// Why a stream or a flow can't be added to a network: of several causes the one that stands first here.
#[derive(Clone, Copy, Debug, PartialEq, Eq, Hash)]
pub enum PushFault {
    /// A stream or a flow of the network has the name.
    NameTaken,
    /// A stream of the network has the destination address and VLAN identifier. No flow is refused so.
    IdentityTaken,
    /// As many streams, or flows, are there as a network may have, or the streams would have more ports together; or,
    /// by the clocks on a stream's way, a rate or a burst of it is over the limits of a scheduler.
    Limit,
}

impl Fault for PushFault {}

impl fmt::Display for PushFault {
    ghost use Rattle.std.specs.Prelude.{Some};
    ghost use Rattle.ats_network.specs.FaultText.{fault_text};

    ghost output = { λ fault. Some (fault_text fault) };

    fn fmt<W: fmt::Write>(&self, f: &mut fmt::Formatter<W>) -> fmt::Result {
        f.write_str(match self {
            PushFault::NameTaken => "name-taken",
            PushFault::IdentityTaken => "identity-taken",
            PushFault::Limit => "limit",
        })
    }
}

impl Error for PushFault {}
