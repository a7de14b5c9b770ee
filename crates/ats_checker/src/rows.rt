//! What each row of a certificate keeps.

ghost use Rattle.std.specs.Prelude.{◌≡◌, None, All};
ghost use Rattle.ats_certificate.specs.Form.{IsRow};
ghost use Rattle.ats_certificate.specs.declared.row.Row.{Row};
ghost use Rattle.ats_tally.specs.ClassSums.{port_sums_of};
ghost use Rattle.ats_tally.specs.Reason.{first_some, overload_in};
ghost use Rattle.ats_checker.specs.Refusal.{short, stray, wrong_by, wrong_in};
ghost use Rattle.ats_checker.specs.Rows.{IsUsedRow};

use crate::refusal::{Field, Refusal};
use ats_certificate::Row;
use ats_tally::{ClassSums, Tallies, least_wait};

/// The first row of a port and a class that no stream uses.
pub(crate) fn first_stray(tallies: &Tallies, rows: &[Row]) -> Option<Refusal>
    requires { All IsRow rows.now }
    ensures { result ≡ first_some (stray tallies.now) rows.now }
{
    for row in rows {
        if let Some(refusal) = stray(tallies, row) {
            return Some(refusal);
        }
    }
    None
}

fn stray(tallies: &Tallies, row: &Row) -> Option<Refusal>
    requires { IsRow row.now }
    ensures { result ≡ stray tallies.now row.now }
{
    if tallies.uses(row.port, row.class) {
        return None;
    }
    Some(Refusal::RowStray {
        port: row.port,
        class: row.class,
    })
}

/// The first row that does not say what the senders make of its port and class, with the first field at fault.
pub(crate) fn first_wrong(tallies: &Tallies, rows: &[Row]) -> Option<Refusal>
    requires form { All IsRow rows.now }
    requires used { All (IsUsedRow tallies.now) rows.now }
    ensures { result ≡ first_some (wrong_in tallies.now) rows.now }
{
    for row in rows {
        if let Some(refusal) = wrong_in(tallies, row) {
            return Some(refusal);
        }
    }
    None
}

fn wrong_in(tallies: &Tallies, row: &Row) -> Option<Refusal>
    requires form { IsRow row.now }
    requires used { IsUsedRow tallies.now row.now }
    ensures { result ≡ wrong_in tallies.now row.now }
{
    let port = &tallies.network().topology().ports()[row.port as usize];
    let sums = tallies.sums(row.port, row.class);
    let sent = u128::from(port.ps_per_bit) * u128::from(row.least);
    wrong_by(row, &sums, row.wait + sent + u128::from(port.latency.0))
}

// The first field of a row that is wrong, where the senders make these sums of its port and class and its bound is to
// be this one.
fn wrong_by(row: &Row, sums: &ClassSums, bound: u128) -> Option<Refusal>
    ensures { result ≡ wrong_by row.now (port_sums_of sums.now) bound }
{
    if row.higher != sums.higher {
        return Some(wrong(row, Field::Higher, sums.higher));
    }
    if row.equal != sums.equal {
        return Some(wrong(row, Field::Equal, sums.equal));
    }
    if row.bursts != sums.bursts {
        return Some(wrong(row, Field::Bursts, sums.bursts));
    }
    if row.lower != sums.lower {
        return Some(wrong(row, Field::Lower, u128::from(sums.lower)));
    }
    if row.least != sums.least {
        return Some(wrong(row, Field::Least, u128::from(sums.least)));
    }
    if row.bound != bound {
        return Some(wrong(row, Field::Bound, bound));
    }
    None
}

fn wrong(row: &Row, field: Field, right: u128) -> Refusal
    ensures { result ≡ Refusal.FieldWrong row.now.port row.now.class field right }
{
    Refusal::FieldWrong {
        port: row.port,
        class: row.class,
        field,
        right,
    }
}

/// The first row whose wait is below the least that is enough.
pub(crate) fn first_short(tallies: &Tallies, rows: &[Row]) -> Option<Refusal>
    requires form { All IsRow rows.now }
    requires used { All (IsUsedRow tallies.now) rows.now }
    requires right { All (λ (row : Row). wrong_in tallies.now row ≡ None) rows.now }
    requires fits { All (λ (row : Row). overload_in row ≡ None) rows.now }
    ensures { result ≡ first_some (short tallies.now) rows.now }
{
    for row in rows {
        if let Some(refusal) = short(tallies, row) {
            return Some(refusal);
        }
    }
    None
}

fn short(tallies: &Tallies, row: &Row) -> Option<Refusal>
    requires form { IsRow row.now }
    requires used { IsUsedRow tallies.now row.now }
    requires right { wrong_in tallies.now row.now ≡ None }
    requires fits { overload_in row.now ≡ None }
    ensures { result ≡ short tallies.now row.now }
{
    let port = &tallies.network().topology().ports()[row.port as usize];
    let tally = tallies.tally(row.port, row.class);
    let least = least_wait(u128::from(port.ps_per_bit), row.higher, tally);
    if row.wait >= least {
        return None;
    }
    Some(Refusal::WaitTooSmall {
        port: row.port,
        class: row.class,
        least_wait: least,
    })
}
