//! Why no certificate holds for a network, written.

ghost use Rattle.std.specs.Prelude.{◌≡◌, ◌++◌, length, take, OnOk};
ghost use Rattle.ats_tally.specs.Reason.{ReasonInside};
ghost use Rattle.ats_verdict_text.specs.Text.{reason_text};

use crate::pieces::{write_measure, write_named};
use ats_tally::Reason;
use ats_topology::Topology;
use std::alloc::AllocError;

/// Appends why no certificate holds for a network: a word for what fails, the port and the class,
/// or the listener, and the number that is too great. What stood in `out` stays in front; after
/// `AllocError` nothing is said of what is behind it.
pub fn write_reason(
    out: &mut Vec<u8>,
    topology: &Topology,
    reason: &Reason,
) -> Result<(), AllocError>
    requires { ReasonInside topology.now reason.now }
    ensures written { OnOk result (out.new.items ≡ out.old.items ++ reason_text topology.now reason.now) }
    ensures front { take (length out.old.items) out.new.items ≡ out.old.items }
{
    match reason {
        Reason::Overloaded { port, class, load } => {
            write_measure(out, b"overloaded ", topology, *port, *class, *load)
        }
        Reason::Residence { port, class, need } => {
            write_measure(out, b"residence ", topology, *port, *class, *need)
        }
        Reason::Deadline {
            stream,
            listener,
            sum,
        } => write_named(out, b"deadline ", stream, listener, *sum),
    }
}
