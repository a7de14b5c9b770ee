//! Why a file is no schedule file.

ghost use Rattle.std.specs.Prelude.{Some};
ghost use Rattle.ats_schedule.specs.FaultText.{fault_text};

use ats_num::Fault;
use std::fmt;

/// The first fault of a file that is no schedule file, with its record. Records are counted from 1,
/// and the header is record 1. A record with several faults has the one that stands first here. It
/// is displayed as the word for the fault and the record.
#[derive(Clone, Copy, Debug, PartialEq, Eq)]
pub enum ScheduleFault {
    /// The first record is not the header, or a record has another number of fields than three. A
    /// file without a record has the bad row 1.
    BadRow(u32),
    /// No stream and no flow has the name in the second field.
    UnknownName(u32),
    /// The first or the third field is not a number.
    BadNumber(u32),
    /// The octets are not 64 to 2000.
    BadSize(u32),
    /// The release is before the one of the record before.
    TimeBack(u32),
    /// The release is after 100,000,000,000,000,000 ps, or it is the one after the 200,000th, or the
    /// ports of the frames so far, each with those of its sender, are together more than 3,200,000.
    Limit(u32),
}

impl Fault for ScheduleFault {}

impl fmt::Display for ScheduleFault {
    ghost output = { λ fault. Some (fault_text fault) };

    fn fmt<W: fmt::Write>(&self, f: &mut fmt::Formatter<W>) -> fmt::Result {
        match self {
            ScheduleFault::BadRow(n) => write!(f, "bad-row {n}"),
            ScheduleFault::UnknownName(n) => write!(f, "unknown-name {n}"),
            ScheduleFault::BadNumber(n) => write!(f, "bad-number {n}"),
            ScheduleFault::BadSize(n) => write!(f, "bad-size {n}"),
            ScheduleFault::TimeBack(n) => write!(f, "time-back {n}"),
            ScheduleFault::Limit(n) => write!(f, "limit {n}"),
        }
    }
}
