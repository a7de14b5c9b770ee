//! Why a file is no certificate file.

ghost use Rattle.std.specs.Prelude.{Some};
ghost use Rattle.ats_certificate_file.specs.FaultText.{fault_text};

use ats_num::Fault;
use std::fmt;

/// The first fault of a file that is no certificate file, with its record. Records are counted from
/// 1, and the header is record 1. A record with several faults has the one that stands first here.
/// It is displayed as the word for the fault and the record.
#[derive(Clone, Copy, Debug, PartialEq, Eq)]
pub enum CertFault {
    /// The first record is not the header, or a record has another number of fields than nine. A
    /// file without a record has the bad row 1.
    BadRow(u32),
    /// The first field is not the name of a port.
    UnknownPort(u32),
    /// One of the other fields is not a number, the class is not 1 to 7, or `lower` or `least` is over 16160.
    BadNumber(u32),
    /// The row does not come after the one before, by port and then class.
    RowOrder(u32),
}

impl Fault for CertFault {}

impl fmt::Display for CertFault {
    ghost output = { λ fault. Some (fault_text fault) };

    fn fmt<W: fmt::Write>(&self, f: &mut fmt::Formatter<W>) -> fmt::Result {
        match self {
            CertFault::BadRow(n) => write!(f, "bad-row {n}"),
            CertFault::UnknownPort(n) => write!(f, "unknown-port {n}"),
            CertFault::BadNumber(n) => write!(f, "bad-number {n}"),
            CertFault::RowOrder(n) => write!(f, "row-order {n}"),
        }
    }
}
