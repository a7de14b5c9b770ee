//! Certificate files as bytes.

ghost use Rattle.std.specs.Prelude.{◌≡◌, ◌≤◌, [], length, IsTrue, None, Some};
ghost use Rattle.ats_num.specs.Failure.{Gives};
ghost use Rattle.ats_certificate_file.specs.Reading.{header, rows_from, rows_of, rows_under};
ghost use Rattle.ats_csv.specs.Reading.{same_fields};

use crate::fault::CertFault;
use crate::row::row_after;
use ats_certificate::Certificate;
use ats_csv::{Records, Taken};
use ats_num::Failure;
use ats_port_names::PortNames;
use ats_topology::Topology;
use std::alloc::Global;

/// The fields of the first record.
const HEADER: [&[u8]; 9] = [
    b"port", b"class", b"higher", b"equal", b"bursts", b"lower", b"least", b"wait", b"bound",
];

/// The certificate that a file declares for the ports of a topology, or its first fault with its
/// record, counted from 1.
pub fn read_certificate(
    alloc: Global,
    bytes: &[u8],
    topology: &Topology,
) -> Result<Certificate, Failure<CertFault>>
    requires { length bytes.now ≤ 16777216 }
    ensures { Gives result (rows_of topology.now bytes.now) }
{
    let names = PortNames::new(alloc, topology)?;
    let mut records = Records::open(alloc, bytes);
    rows_under(alloc, &names, &mut records)
}

// The rows of the records that are left, the first of which is to be the header.
fn rows_under(
    alloc: Global,
    names: &PortNames,
    records: &mut Records,
) -> Result<Certificate, Failure<CertFault>>
    requires few { length records.old.left ≤ 16777217 }
    requires width { records.old.width ≡ None }
    ensures { Gives result (rows_under names.now records.old.left) }
{
    match records.advance()? {
        Taken::Record if has_header(records) => rows_from(alloc, names, records),
        _ => Err(Failure::Fault(CertFault::BadRow(1))),
    }
}

// Whether the record that was taken last is the header.
#[tactic(auto, unfolding(crate::specs::Reading::header))]
fn has_header(records: &Records) -> bool
    ensures test { result ≡ same_fields records.now.fields header }
    ensures nine { IsTrue result → length records.now.fields ≡ 9 }
{
    records.has_fields(&HEADER)
}

// The rows of the records that are left, the first of which is record 2.
fn rows_from(
    alloc: Global,
    names: &PortNames,
    records: &mut Records,
) -> Result<Certificate, Failure<CertFault>>
    requires few { length records.old.left ≤ 16777216 }
    requires width { records.old.width ≡ Some 9 }
    ensures { Gives result (rows_from names.now [] 2 records.old.left) }
{
    let mut certificate = Certificate::new(alloc);
    let mut number = 2;
    loop {
        match records.advance()? {
            Taken::Record => certificate.push(row_after(&certificate, names, number, records)?)?,
            Taken::OtherWidth => return Err(Failure::Fault(CertFault::BadRow(number))),
            Taken::End => return Ok(certificate),
        }
        number += 1;
    }
}
