//! The certificate with the least waits.

ghost use Rattle.std.specs.Prelude.{◌≡◌, None, IfOk, IfErr, OnOk};
ghost use Rattle.ats_num.specs.Failure.{IsDue};
ghost use Rattle.ats_certificate.specs.Certificate.{Holds};
ghost use Rattle.ats_tally.specs.Reason.{first_some, late};
ghost use Rattle.ats_bound.specs.Least.{least_certificate};
ghost use Rattle.ats_bound.specs.Reason.{reason_of};

use crate::listing::least_rows;
use ats_certificate::Certificate;
use ats_network::Network;
use ats_num::Failure;
use ats_tally::{Delays, Reason, Tallies, first_late, first_overstay};
use std::alloc::{AllocError, Global};

/// The certificate of a network with the least waits, which holds. It takes time and memory linear
/// in the number of ports and the sum of the routes' lengths.
///
/// # Errors
///
/// A reason exactly where no certificate holds for the network: the first port and class, in the
/// order of a certificate's rows, whose rates are more than the link can carry; where there is
/// none, the first row whose least wait and port's spread are longer than the maximum residence time
/// behind its port; where there is none either, the first stream that is late, by its first listener for which its
/// least bounds are together over its deadline. `Failure::NoMemory` where memory runs out.
pub fn make(alloc: Global, network: &Network) -> Result<Certificate, Failure<Reason>>
    ensures value { IfOk result (λ certificate. certificate ≡ least_certificate network.now) }
    ensures sound { OnOk result (reason_of network.now ≡ None) }
    ensures holds { OnOk result (Holds network.now (least_certificate network.now)) }
    ensures reason { IfErr result (λ answer. IsDue answer (reason_of network.now)) }
{
    let tallies = Tallies::new(alloc, network)?;
    let certificate = least_rows(alloc, &tallies)?;
    if let Some(reason) = first_overstay(network, certificate.rows()) {
        return Err(Failure::Fault(reason));
    }
    if let Some(reason) = late_by(alloc, network, &certificate)? {
        return Err(Failure::Fault(reason));
    }
    Ok(certificate)
}

// The first stream that is late by a certificate.
fn late_by(
    alloc: Global,
    network: &Network,
    certificate: &Certificate,
) -> Result<Option<Reason>, AllocError>
    ensures { IfOk result (λ reason. reason
        ≡ first_some (late network.now.topology certificate.now) network.now.streams) }
{
    let delays = Delays::new(alloc, network, certificate)?;
    Ok(first_late(&delays))
}
