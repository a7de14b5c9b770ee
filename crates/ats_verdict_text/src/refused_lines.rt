//! The line of a network for which no certificate holds, and that of a certificate that does not hold.

ghost use Rattle.std.specs.Prelude.{◌≡◌, IfOk};
ghost use Rattle.ats_checker.specs.Ports.{RefusalInside};
ghost use Rattle.ats_tally.specs.Reason.{ReasonInside};
ghost use Rattle.ats_verdict_text.specs.Text.{reason_text, refusal_text, refused_text};

use crate::reasons::write_reason;
use crate::refusals::write_refusal;
use ats_checker::Refusal;
use ats_tally::Reason;
use ats_topology::Topology;
use std::alloc::{AllocError, Global};

/// The line that says why no certificate of a network holds. `AllocError` where there is no memory for it.
pub fn refused_network(
    alloc: Global,
    topology: &Topology,
    reason: &Reason,
) -> Result<Vec<u8>, AllocError>
    requires { ReasonInside topology.now reason.now }
    ensures { IfOk result (λ text. text.items ≡ refused_text (reason_text topology.now reason.now)) }
{
    let mut text = Vec::from_slice(alloc, b"refused ")?;
    write_reason(&mut text, topology, reason)?;
    text.extend_from_slice(b"\n")?;
    Ok(text)
}

/// The line that says why a certificate does not hold. `AllocError` where there is no memory for it.
pub fn refused_certificate(
    alloc: Global,
    topology: &Topology,
    refusal: &Refusal,
) -> Result<Vec<u8>, AllocError>
    requires { RefusalInside topology.now refusal.now }
    ensures { IfOk result (λ text. text.items ≡ refused_text (refusal_text topology.now refusal.now)) }
{
    let mut text = Vec::from_slice(alloc, b"refused ")?;
    write_refusal(&mut text, topology, refusal)?;
    text.extend_from_slice(b"\n")?;
    Ok(text)
}
