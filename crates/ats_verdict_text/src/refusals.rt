//! Why a certificate does not hold for a network, written.

ghost use Rattle.std.specs.Prelude.{◌≡◌, ◌++◌, ◌<◌, codes, length, take, OnOk};
ghost use Rattle.ats_checker.specs.Ports.{RefusalInside};
ghost use Rattle.ats_verdict_text.specs.Text.{field_text, refusal_text, wrong_text};

use crate::pieces::{write_measure, write_number, write_place};
use crate::reasons::write_reason;
use ats_checker::{Field, Refusal};
use ats_topology::Topology;
use std::alloc::AllocError;

/// Appends why a certificate does not hold: a word for the clause that fails, the port and the
/// class, or the listener, and, where there is one, the right value, the load, the least wait, the
/// wait with the port's spread, or the sum. What stood in `out` stays in front; after `AllocError`
/// nothing is said of what is behind it.
pub fn write_refusal(
    out: &mut Vec<u8>,
    topology: &Topology,
    refusal: &Refusal,
) -> Result<(), AllocError>
    requires { RefusalInside topology.now refusal.now }
    ensures written { OnOk result (out.new.items ≡ out.old.items ++ refusal_text topology.now refusal.now) }
    ensures front { take (length out.old.items) out.new.items ≡ out.old.items }
{
    match refusal {
        Refusal::RowMissing { port, class } => {
            write_place(out, b"row-missing ", topology, *port, *class)
        }
        Refusal::RowStray { port, class } => {
            write_place(out, b"row-stray ", topology, *port, *class)
        }
        Refusal::FieldWrong {
            port,
            class,
            field,
            right,
        } => write_wrong(out, topology, *port, *class, *field, *right),
        Refusal::WaitTooSmall {
            port,
            class,
            least_wait,
        } => write_measure(out, b"wait ", topology, *port, *class, *least_wait),
        Refusal::Network(reason) => write_reason(out, topology, reason),
    }
}

// A field of a row with its right value.
fn write_wrong(
    out: &mut Vec<u8>,
    topology: &Topology,
    port: u32,
    class: u8,
    field: Field,
    right: u128,
) -> Result<(), AllocError>
    requires { port < length topology.now.ports }
    ensures written { OnOk result (out.new.items ≡ out.old.items ++ wrong_text topology.now port class field right) }
    ensures front { take (length out.old.items) out.new.items ≡ out.old.items }
{
    write_place(out, b"field ", topology, port, class)?;
    write_field(out, field)?;
    write_number(out, b" ", right)
}

// A blank, and a column behind it.
fn write_field(out: &mut Vec<u8>, field: Field) -> Result<(), AllocError>
    ensures written { OnOk result (out.new.items ≡ out.old.items ++ (codes " " ++ field_text field)) }
    ensures front { take (length out.old.items) out.new.items ≡ out.old.items }
{
    out.extend_from_slice(b" ")?;
    out.extend_from_slice(field_text(field).as_bytes())?;
    Ok(())
}

// A column as the header of a certificate names it.
fn field_text(field: Field) -> &'static str
    ensures { result.now ≡ field_text field }
{
    match field {
        Field::Higher => "higher",
        Field::Equal => "equal",
        Field::Bursts => "bursts",
        Field::Lower => "lower",
        Field::Least => "least",
        Field::Bound => "bound",
    }
}
