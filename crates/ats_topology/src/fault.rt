//! Why nodes and links are no network.

use ats_num::Fault;
use std::error::Error;
use std::fmt;

/// The first fault of a list of nodes and a list of links: the one that stands first here, and of
/// several of one kind the one of the earliest entry. Nodes and links are counted from 1.
#[derive(Clone, Copy, Debug, PartialEq, Eq)]
pub enum TopologyFault {
    /// The node's name stands at a node before it.
    NodeTwice(u32),
    /// A link before it has these two ends, in this order or turned round.
    LinkTwice(u32),
    /// The link has one name at both ends.
    SelfLink(u32),
    /// An end of the link is the name of no node.
    UnknownNode(u32),
    /// The node is a station and does not have exactly one link.
    StationLinks(u32),
    /// The rate of the link is none that a link may have.
    BadRate(u32),
    /// There are over 1024 nodes or 2048 links, or a propagation or a greatest processing is over
    /// 1,000,000 ns, or a residence over 1,000,000,000 ns.
    Limit,
    /// The node is a bridge whose least processing is over its greatest.
    BadProcessing(u32),
}

impl Fault for TopologyFault {}

impl fmt::Display for TopologyFault {
    ghost use Rattle.std.specs.Prelude.{Some};
    ghost use Rattle.ats_topology.specs.FaultText.{fault_text};

    ghost output = { λ fault. Some (fault_text fault) };

    fn fmt<W: fmt::Write>(&self, f: &mut fmt::Formatter<W>) -> fmt::Result {
        match self {
            TopologyFault::NodeTwice(n) => write!(f, "node-twice {n}"),
            TopologyFault::LinkTwice(n) => write!(f, "link-twice {n}"),
            TopologyFault::SelfLink(n) => write!(f, "self-link {n}"),
            TopologyFault::UnknownNode(n) => write!(f, "unknown-node {n}"),
            TopologyFault::StationLinks(n) => write!(f, "station-links {n}"),
            TopologyFault::BadRate(n) => write!(f, "bad-rate {n}"),
            TopologyFault::Limit => f.write_str("limit"),
            TopologyFault::BadProcessing(n) => write!(f, "bad-processing {n}"),
        }
    }
}

impl Error for TopologyFault {}
