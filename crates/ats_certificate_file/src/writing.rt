//! The text of a certificate.

ghost use Rattle.std.specs.Prelude.{◌≡◌, ◌++◌, ◌<◌, length, All, IfOk, OnOk};
ghost use Rattle.ats_csv.specs.Plain.{record_text};
ghost use Rattle.ats_certificate.specs.declared.row.Row.{Row};
ghost use Rattle.ats_certificate_file.specs.Reading.{header};
ghost use Rattle.ats_certificate_file.specs.Text.{certificate_text, fields_of};

use ats_certificate::{Certificate, Row};
use ats_csv::{Field, push_record};
use ats_port_names::write_port;
use ats_topology::Topology;
use std::alloc::{AllocError, Global};

// The text of the first record.
const HEADER_LINE: &[u8] = b"port,class,higher,equal,bursts,lower,least,wait,bound\n";

/// The text of a certificate whose rows are of ports of the topology: the header, and a record for each row.
#[tactic(auto, using(crate::proofs::Texts::row_more, crate::proofs::Texts::no_row))]
pub fn write_certificate(
    alloc: Global,
    certificate: &Certificate,
    topology: &Topology,
) -> Result<Vec<u8>, AllocError>
    requires { All (λ (row : Row). row.port < length topology.now.ports) certificate.now }
    ensures { IfOk result (λ text. text.items ≡ certificate_text topology.now certificate.now) }
{
    let mut out = Vec::new(alloc);
    write_header(&mut out)?;
    for row in certificate.rows() {
        write_row(alloc, &mut out, row, topology)?;
    }
    Ok(out)
}

// Appends the record of the header.
#[tactic(auto, unfolding(crate::specs::Reading::header))]
fn write_header(out: &mut Vec<u8>) -> Result<(), AllocError>
    ensures { OnOk result (out.new.items ≡ out.old.items ++ record_text header) }
{
    Ok(out.extend_from_slice(HEADER_LINE)?)
}

// Appends the record of a row.
fn write_row(
    alloc: Global,
    out: &mut Vec<u8>,
    row: &Row,
    topology: &Topology,
) -> Result<(), AllocError>
    requires { row.now.port < length topology.now.ports }
    ensures { OnOk result (out.new.items ≡ out.old.items ++ record_text (fields_of topology.now row.now)) }
{
    let mut port = Vec::new(alloc);
    write_port(&mut port, topology, row.port)?;
    push_record(
        out,
        &[
            Field::Text(&port),
            Field::Number(row.class.into()),
            Field::Number(row.higher),
            Field::Number(row.equal),
            Field::Number(row.bursts),
            Field::Number(row.lower.into()),
            Field::Number(row.least.into()),
            Field::Number(row.wait),
            Field::Number(row.bound),
        ],
    )
}
