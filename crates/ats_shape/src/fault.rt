//! Why a text is no shape file.

ghost use Rattle.std.specs.Prelude.{Some};
ghost use Rattle.ats_shape.specs.FaultText.{fault_text};

use ats_num::Fault;
use ats_streams::StreamFault;
use std::fmt;

/// The first fault of a text that is no shape file, with its line, counted from 1. A line with several faults has the
/// one that stands first here. It is displayed as the word for the fault and the line.
#[derive(Clone, Copy, Debug, PartialEq, Eq)]
pub enum ShapeFault {
    /// The line does not have the form due in its place, a name is not a name, a number is not a number, a residence is
    /// over 1,000,000,000 ns, an arrival is over 100,000,000,000,000,000 ps, or a frame's octets are not 64 to 2000.
    BadLine(u32),
    /// An earlier stream has this name.
    NameTwice(u32),
    /// The numbers of a stream break this rule.
    Stream(u32, StreamFault),
    /// No stream has this name.
    UnknownName(u32),
    /// The frame arrives before the one of the frame line before.
    TimeBack(u32),
    /// The stream after the 4096th, or the frame after the 200,000th.
    Limit(u32),
}

impl Fault for ShapeFault {}

impl fmt::Display for ShapeFault {
    ghost output = { λ fault. Some (fault_text fault) };

    fn fmt<W: fmt::Write>(&self, f: &mut fmt::Formatter<W>) -> fmt::Result {
        match self {
            ShapeFault::BadLine(n) => write!(f, "bad-line {n}"),
            ShapeFault::NameTwice(n) => write!(f, "name-twice {n}"),
            ShapeFault::Stream(n, fault) => write!(f, "{fault} {n}"),
            ShapeFault::UnknownName(n) => write!(f, "unknown-name {n}"),
            ShapeFault::TimeBack(n) => write!(f, "time-back {n}"),
            ShapeFault::Limit(n) => write!(f, "limit {n}"),
        }
    }
}
