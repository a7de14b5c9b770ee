//! Why a text is no request file.

ghost use Rattle.std.specs.Prelude.{Some};
ghost use Rattle.ats_request_file.specs.FaultText.{fault_text};

use ats_num::Fault;
use ats_streams::StreamFault;
use std::fmt;

/// The first fault of a text that is no request file over a network, with its line, counted from 1. A line with several
/// faults has the one that stands first here. It is displayed as the word for the fault and the line.
#[derive(Clone, Copy, Debug, PartialEq, Eq)]
pub enum RequestFault {
    /// The line has neither form, the name of a stream is not a name, or a number is not a number of at most 18 digits.
    BadLine(u32),
    /// An end is not the name of a station.
    UnknownNode(u32),
    /// The ends are equal, or no walk leads from one to the other.
    NoPath(u32),
    /// The stream breaks this rule.
    Stream(u32, StreamFault),
    /// The request after the 10,000th.
    Limit(u32),
}

impl Fault for RequestFault {}

impl fmt::Display for RequestFault {
    ghost output = { λ fault. Some (fault_text fault) };

    fn fmt<W: fmt::Write>(&self, f: &mut fmt::Formatter<W>) -> fmt::Result {
        match self {
            RequestFault::BadLine(n) => write!(f, "bad-line {n}"),
            RequestFault::UnknownNode(n) => write!(f, "unknown-node {n}"),
            RequestFault::NoPath(n) => write!(f, "no-path {n}"),
            RequestFault::Stream(n, fault) => write!(f, "{fault} {n}"),
            RequestFault::Limit(n) => write!(f, "limit {n}"),
        }
    }
}
