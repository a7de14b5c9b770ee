//! Why a file gives no records, and records no releases.

ghost use Rattle.std.specs.Prelude.{◌≡◌};

use ats_io::Failed;
use ats_num::Fault;
use ats_pcap::CaptureFault;
use std::fmt;

/// Why a file gives no records. It is displayed as the word for the fault; `Failed`, which is no fault
/// of the bytes, as `read-failed`.
#[derive(Clone, Copy, Debug, PartialEq, Eq)]
pub enum RecordsFault {
    /// A read failed; the count of faults of the file's name rose.
    Failed,
    /// The file has more than 268,435,456 bytes, and the first of them show no fault.
    TooLong,
    /// The bytes of the file, or the first 268,435,456 of more, are no capture.
    Capture(CaptureFault),
}

impl Fault for RecordsFault {}

impl From<Failed> for RecordsFault {
    ghost use Rattle.ats_capture.specs.declared.fault.RecordsFault.TheVariants.{Failed};

    ghost from_gives = { λ _ e. e ≡ Failed };

    fn from(_e: Failed) -> RecordsFault {
        RecordsFault::Failed
    }
}

impl From<CaptureFault> for RecordsFault {
    ghost use Rattle.ats_capture.specs.declared.fault.RecordsFault.TheVariants.{Capture};

    ghost from_gives = { λ fault e. e ≡ Capture fault };

    fn from(fault: CaptureFault) -> RecordsFault {
        RecordsFault::Capture(fault)
    }
}

impl fmt::Display for RecordsFault {
    ghost use Rattle.std.specs.Prelude.{Some};
    ghost use Rattle.ats_capture.specs.FaultText.{records_fault_text};

    ghost output = { λ fault. Some (records_fault_text fault) };

    fn fmt<W: fmt::Write>(&self, f: &mut fmt::Formatter<W>) -> fmt::Result {
        match self {
            RecordsFault::Failed => f.write_str("read-failed"),
            RecordsFault::TooLong => f.write_str("too-long"),
            RecordsFault::Capture(fault) => write!(f, "{fault}"),
        }
    }
}

/// Why the records of a capture are no releases that may be run. It is displayed as the word for the
/// fault and the number of the record.
#[derive(Clone, Copy, Debug, PartialEq, Eq)]
pub enum JoinFault {
    /// The record with this number, counted from 1 among all records, is a release of the station,
    /// and is the one after the 200,000th, or later than 100,000,000,000,000,000 ps, or the ports of
    /// the frames so far, each with those of its sender, are together more than 3,200,000.
    Limit(u32),
}

impl Fault for JoinFault {}

impl fmt::Display for JoinFault {
    ghost use Rattle.std.specs.Prelude.{Some};
    ghost use Rattle.ats_capture.specs.FaultText.{fault_text};

    ghost output = { λ fault. Some (fault_text fault) };

    fn fmt<W: fmt::Write>(&self, f: &mut fmt::Formatter<W>) -> fmt::Result {
        match self {
            JoinFault::Limit(n) => write!(f, "limit {n}"),
        }
    }
}
