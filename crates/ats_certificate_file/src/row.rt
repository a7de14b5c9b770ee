//! The row that a record writes.

ghost use Rattle.std.specs.Prelude.{◌≡◌, ◌≤◌, ◌<◌, ◌^◌, length, IfOk};
ghost use Rattle.ats_certificate.specs.Form.{ComesAfter, IsRow};
ghost use Rattle.ats_certificate_file.specs.Reading.{number_in, number_within, row_after, row_in};

use crate::fault::CertFault;
use ats_certificate::{Certificate, Row};
use ats_csv::Records;
use ats_num::number;
use ats_num::wire::MAX_WIRE_BITS;
use ats_port_names::PortNames;

// The row of record n, which has nine fields and is to come after the rows of a certificate.
#[tactic(auto, unfolding(crate::specs::Reading::row_after))]
pub(crate) fn row_after(
    certificate: &Certificate,
    names: &PortNames,
    n: u32,
    records: &Records,
) -> Result<Row, CertFault>
    requires { length records.now.fields ≡ 9 }
    ensures due { result ≡ row_after names.now certificate.now n records.now.fields }
    ensures form { IfOk result IsRow }
    ensures after { IfOk result (ComesAfter certificate.now) }
{
    let row = row_in(names, n, records)?;
    match certificate.rows().last() {
        Some(last) if !last.is_before(&row) => Err(CertFault::RowOrder(n)),
        _ => Ok(row),
    }
}

// The row that the nine fields of record n write.
#[tactic(auto, unfolding(crate::specs::Reading::row_in))]
fn row_in(names: &PortNames, n: u32, records: &Records) -> Result<Row, CertFault>
    requires { length records.now.fields ≡ 9 }
    ensures due { result ≡ row_in names.now n records.now.fields }
    ensures form { IfOk result IsRow }
{
    let port = names
        .number(records.field(0))
        .ok_or(CertFault::UnknownPort(n))?;
    let class = number_within(n, 1, 7, records.field(1))?;
    let higher = number_in(n, records.field(2))?;
    let equal = number_in(n, records.field(3))?;
    let bursts = number_in(n, records.field(4))?;
    let lower = number_within(n, 0, MAX_WIRE_BITS, records.field(5))?;
    let least = number_within(n, 0, MAX_WIRE_BITS, records.field(6))?;
    let wait = number_in(n, records.field(7))?;
    let bound = number_in(n, records.field(8))?;
    Ok(Row {
        port,
        class: class as u8,
        higher,
        equal,
        bursts,
        lower: lower as u64,
        least: least as u64,
        wait,
        bound,
    })
}

// The number that a text in record n writes.
#[tactic(auto, using(crate::proofs::Numbers::few_digits))]
fn number_in(n: u32, text: &[u8]) -> Result<u128, CertFault>
    ensures due { result ≡ number_in n text.now }
    ensures digits { IfOk result (λ number. number < 10 ^ 36) }
{
    number(text).ok_or(CertFault::BadNumber(n))
}

// The same for a number that is to be at least and at most so much.
fn number_within(n: u32, least: u64, most: u64, text: &[u8]) -> Result<u128, CertFault>
    ensures due { result ≡ number_within n least most text.now }
    ensures least { IfOk result (λ number. least ≤ number) }
    ensures most { IfOk result (λ number. number ≤ most) }
{
    let number = number_in(n, text)?;
    if number < u128::from(least) || number > u128::from(most) {
        return Err(CertFault::BadNumber(n));
    }
    Ok(number)
}
