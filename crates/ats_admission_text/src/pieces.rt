//! Pieces of lines.

ghost use Rattle.std.specs.Prelude.{◌≡◌, ◌++◌, All, OnOk};
ghost use Rattle.ats_tally.specs.Reason.{ReasonInside};
ghost use Rattle.ats_admission_text.specs.Inside.{DeniedInside};
ghost use Rattle.ats_admission_text.specs.Text.{class_line, class_lines, denied_text, given_text, reason_end};

use ats_num::Name;
use ats_requests::Denied;
use ats_tally::Reason;
use ats_topology::Topology;
use ats_verdict_text::write_reason;
use itoa::{Buffer, Integer};
use std::alloc::AllocError;

// A word, and a number behind it.
pub(crate) fn write_number<I: Integer + Drop>(
    out: &mut Vec<u8>,
    word: &[u8],
    n: I,
) -> Result<(), AllocError>
    ensures { OnOk result (out.new.items ≡ out.old.items ++ (word.now ++ I.text n)) }
{
    let mut buffer = Buffer::new();
    out.extend_from_slice(word)?;
    out.extend_from_slice(buffer.format(n).as_bytes())?;
    Ok(())
}

// A word, and a name behind it.
pub(crate) fn write_named(out: &mut Vec<u8>, word: &[u8], name: &Name) -> Result<(), AllocError>
    ensures { OnOk result (out.new.items ≡ out.old.items ++ (word.now ++ name.now)) }
{
    out.extend_from_slice(word)?;
    out.extend_from_slice(name.bytes())?;
    Ok(())
}

// The class and the sum of a stream that came in.
#[tactic(auto, unfolding(crate::specs::Text::given_text))]
pub(crate) fn write_given(out: &mut Vec<u8>, class: u8, sum: u128) -> Result<(), AllocError>
    ensures { OnOk result (out.new.items ≡ out.old.items ++ given_text class sum) }
{
    write_number(out, b" ", class)?;
    write_number(out, b" ", sum)?;
    out.extend_from_slice(b"\n")?;
    Ok(())
}

// Why nothing changed.
pub(crate) fn write_denied(
    out: &mut Vec<u8>,
    topology: &Topology,
    denied: &Denied,
) -> Result<(), AllocError>
    requires { DeniedInside topology.now denied.now }
    ensures { OnOk result (out.new.items ≡ out.old.items ++ denied_text topology.now denied.now) }
{
    match denied {
        Denied::NameTaken => out.extend_from_slice(b" name-taken\n"),
        Denied::NameUnknown => out.extend_from_slice(b" name-unknown\n"),
        Denied::Limit => out.extend_from_slice(b" limit\n"),
        Denied::Because(reason) => write_end(out, topology, reason),
        Denied::NoClass(reasons) => {
            out.extend_from_slice(b" no-class\n")?;
            write_classes(out, topology, reasons)
        }
    }
}

// A reason, to the end of its line.
#[tactic(auto, unfolding(crate::specs::Text::reason_end))]
fn write_end(out: &mut Vec<u8>, topology: &Topology, reason: &Reason) -> Result<(), AllocError>
    requires { ReasonInside topology.now reason.now }
    ensures { OnOk result (out.new.items ≡ out.old.items ++ reason_end topology.now reason.now) }
{
    out.extend_from_slice(b" ")?;
    write_reason(out, topology, reason)?;
    out.extend_from_slice(b"\n")?;
    Ok(())
}

// A line for each class, from 1 on.
fn write_classes(
    out: &mut Vec<u8>,
    topology: &Topology,
    reasons: &[Reason],
) -> Result<(), AllocError>
    requires { All (ReasonInside topology.now) reasons.now }
    ensures { OnOk result (out.new.items ≡ out.old.items ++ class_lines topology.now reasons.now) }
{
    for (i, reason) in reasons.iter().enumerate() {
        write_class(out, topology, i + 1, reason)?;
    }
    Ok(())
}

// The line of a class.
fn write_class(
    out: &mut Vec<u8>,
    topology: &Topology,
    class: usize,
    reason: &Reason,
) -> Result<(), AllocError>
    requires { ReasonInside topology.now reason.now }
    ensures { OnOk result (out.new.items ≡ out.old.items ++ class_line topology.now (class, reason.now)) }
{
    write_number(out, b"class ", class)?;
    write_end(out, topology, reason)
}
