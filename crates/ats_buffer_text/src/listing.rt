//! The text of buffers, row by row.

ghost use Rattle.std.specs.Prelude.{◌≡◌, ◌++◌, ◌<◌, length, All, IfOk, OnOk};
ghost use Rattle.std.specs.Option.{option_copied};
ghost use Rattle.ats_buffer_text.specs.Text.{buffers_text, peak_of, peak_text, row_line, row_lines};

use ats_certificate::Row;
use ats_port_names::write_port;
use ats_topology::Topology;
use itoa::{Buffer, Integer};
use std::alloc::{AllocError, Global};

/// A line for each row, in order, with its port, its class and its buffer, which is the number with
/// the row's place in `buffers`, and with its peak, which is the one in `peaks`, where these are
/// given; then a line with the number of rows. Buffers and peaks are in wire bits. It takes time
/// linear in the number of rows. `AllocError` where there is no memory for the text.
#[tactic(auto, unfolding(crate::specs::Text::buffers_text))]
pub fn listed(
    alloc: Global,
    topology: &Topology,
    rows: &[Row],
    buffers: &[u128],
    peaks: Option<&[u64]>,
) -> Result<Vec<u8>, AllocError>
    requires inside { All (λ row. row.port < length topology.now.ports) rows.now }
    requires each { length buffers.now ≡ length rows.now }
    ensures { IfOk result (λ text.
        text.items ≡ buffers_text topology.now rows.now buffers.now (option_copied peaks.entry)) }
{
    let mut out = Vec::new(alloc);
    write_rows(&mut out, topology, rows, buffers, peaks)?;
    write_number(&mut out, b"rows ", rows.len())?;
    out.extend_from_slice(b"\n")?;
    Ok(out)
}

// A line for each row.
fn write_rows(
    out: &mut Vec<u8>,
    topology: &Topology,
    rows: &[Row],
    buffers: &[u128],
    peaks: Option<&[u64]>,
) -> Result<(), AllocError>
    requires inside { All (λ row. row.port < length topology.now.ports) rows.now }
    requires each { length buffers.now ≡ length rows.now }
    ensures { OnOk result (out.new.items
        ≡ out.old.items ++ row_lines topology.now rows.now buffers.now (option_copied peaks.entry)) }
{
    for (n, row) in rows.iter().enumerate() {
        write_row(out, topology, row, buffers[n], peak_of(peaks, n))?;
    }
    Ok(())
}

// The peak with a number, where there are peaks.
fn peak_of(peaks: Option<&[u64]>, n: usize) -> Option<u64>
    ensures { result ≡ peak_of (option_copied peaks.entry) n }
{
    peaks?.get(n).copied()
}

// The line of a row with this buffer and this peak.
#[tactic(auto, unfolding(crate::specs::Text::row_line))]
fn write_row(
    out: &mut Vec<u8>,
    topology: &Topology,
    row: &Row,
    bits: u128,
    peak: Option<u64>,
) -> Result<(), AllocError>
    requires { row.now.port < length topology.now.ports }
    ensures { OnOk result (out.new.items ≡ out.old.items ++ row_line topology.now row.now bits peak) }
{
    out.extend_from_slice(b"buffer ")?;
    write_port(out, topology, row.port)?;
    write_number(out, b" ", row.class)?;
    write_number(out, b" ", bits)?;
    write_peak(out, peak)?;
    out.extend_from_slice(b"\n")?;
    Ok(())
}

// A peak, where there is one.
fn write_peak(out: &mut Vec<u8>, peak: Option<u64>) -> Result<(), AllocError>
    ensures { OnOk result (out.new.items ≡ out.old.items ++ peak_text peak) }
{
    match peak {
        Some(bits) => write_number(out, b" peak ", bits),
        None => Ok(()),
    }
}

// A word, and a number behind it.
fn write_number<I: Integer + Drop>(out: &mut Vec<u8>, word: &[u8], n: I) -> Result<(), AllocError>
    ensures { OnOk result (out.new.items ≡ out.old.items ++ (word.now ++ I.text n)) }
{
    let mut buffer = Buffer::new();
    out.extend_from_slice(word)?;
    out.extend_from_slice(buffer.format(n).as_bytes())?;
    Ok(())
}
