//! Why bytes are no capture.

ghost use Rattle.std.specs.Prelude.{Some};
ghost use Rattle.ats_pcap.specs.FaultText.{fault_text};

use ats_num::Fault;
use std::fmt;

/// The first fault of bytes that are no capture. Records are counted from 1. It is displayed as the
/// word for the fault and, where it is the fault of a record, its number.
#[derive(Clone, Copy, Debug, PartialEq, Eq)]
pub enum CaptureFault {
    /// The first four bytes are no magic number of a capture.
    BadMagic,
    /// The first four bytes begin a pcapng file, which is another format.
    PcapNg,
    /// The version is not 2.4.
    BadVersion,
    /// The link type is not 1, Ethernet.
    BadLink,
    /// The record has more than 262,144 captured bytes.
    RecordTooLong(u32),
    /// The bytes end inside this record, or inside the header where it is 0.
    CutShort(u32),
    /// This record is one more than a capture may have, which is 1,000,000.
    Limit(u32),
}

impl Fault for CaptureFault {}

impl fmt::Display for CaptureFault {
    ghost output = { λ fault. Some (fault_text fault) };

    fn fmt<W: fmt::Write>(&self, f: &mut fmt::Formatter<W>) -> fmt::Result {
        match self {
            CaptureFault::BadMagic => f.write_str("bad-magic"),
            CaptureFault::PcapNg => f.write_str("pcapng"),
            CaptureFault::BadVersion => f.write_str("bad-version"),
            CaptureFault::BadLink => f.write_str("bad-link"),
            CaptureFault::RecordTooLong(n) => write!(f, "record-too-long {n}"),
            CaptureFault::CutShort(n) => write!(f, "cut-short {n}"),
            CaptureFault::Limit(n) => write!(f, "limit {n}"),
        }
    }
}
