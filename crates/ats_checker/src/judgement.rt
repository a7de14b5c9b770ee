//! The judgement of a certificate.

ghost use Rattle.std.specs.Prelude.{◌≡◌, ◌⊎◌, length, IfErr, IfOk, OnOk};
ghost use Rattle.ats_num.specs.Failure.{IsDue};
ghost use Rattle.ats_num.specs.IfFault.{IfFault};
ghost use Rattle.ats_network.specs.Network.{IsNetwork};
ghost use Rattle.ats_certificate.specs.Certificate.{Holds};
ghost use Rattle.ats_certificate.specs.Form.{AreRows};
ghost use Rattle.ats_soundness_law.specs.Sound.{IsSound};
ghost use Rattle.ats_tally.specs.Delays.{rows_for};
ghost use Rattle.ats_checker.specs.Ports.{RefusalInside, RowsInside};
ghost use Rattle.ats_checker.specs.Refusal.{refusal_of};

use crate::places::first_missing;
use crate::refusal::Refusal;
use crate::rows::{first_short, first_stray, first_wrong};
use ats_certificate::Certificate;
use ats_network::Network;
use ats_num::Failure;
use ats_tally::{Delays, Tallies, first_late, first_overload, first_overstay};
use std::alloc::Global;

/// The delays that a certificate gives the streams of a network for which it holds, and only such a
/// one: for each hop the bound, and for each stream their sum. The bounds are then sound: in each
/// legal run of the network, each frame of a stream whose talker and bridges keep their buckets is never
/// discarded, is eligible at each next hop within the bound of the hop before, and arrives within
/// its stream's sum. It takes time and memory linear in the numbers of ports and of rows and the
/// sum of the paths' lengths.
///
/// # Errors
///
/// The first clause that fails, in the order that `Refusal` says, and there the first row, field or
/// stream, exactly where the certificate does not hold; or `Failure::NoMemory` in its place, or in
/// place of the delays, where memory runs out. So a certificate that holds is accepted, unless
/// memory runs out. The port that a refusal names is one of the network's where each row's is.
pub fn check<'a>(
    alloc: Global,
    network: &'a Network,
    certificate: &'a Certificate,
) -> Result<Delays<'a>, Failure<Refusal>>
    ensures ok { IfOk result (λ delays. delays ≡ rows_for network.now certificate.now) }
    ensures holds { OnOk result (Holds network.now certificate.now) }
    ensures sound { OnOk result (IsSound network.now certificate.now) }
    ensures refused { IfErr result (λ failure. IsDue failure (refusal_of network.now certificate.now)) }
    ensures fails { IfErr result (λ failure. (failure ≡ Failure.NoMemory) ⊎ ¬ Holds network.now certificate.now) }
    ensures inside { RowsInside network.now.topology certificate.now
        → IfErr result (IfFault (RefusalInside network.now.topology)) }
{
    let delays = Delays::new(alloc, network, certificate)?;
    let tallies = Tallies::new(alloc, network)?;
    match first_refusal(&tallies, &delays) {
        Some(refusal) => Err(Failure::Fault(refusal)),
        None => Ok(delays),
    }
}

// Why the certificate does not hold, if it does not.
fn first_refusal(tallies: &Tallies, delays: &Delays) -> Option<Refusal>
    requires { delays.now.network ≡ tallies.now }
    ensures refusal { result ≡ refusal_of tallies.now delays.now.rows }
    ensures rules { IsNetwork tallies.now }
    ensures form { AreRows delays.now.rows }
{
    let network = tallies.network();
    let bounds = delays.bounds();
    let rows = bounds.rows();
    if let Some(refusal) = first_missing(tallies, bounds) {
        return Some(refusal);
    }
    if let Some(refusal) = first_stray(tallies, rows) {
        return Some(refusal);
    }
    if let Some(refusal) = first_wrong(tallies, rows) {
        return Some(refusal);
    }
    if let Some(reason) = first_overload(rows) {
        return Some(Refusal::Network(reason));
    }
    if let Some(refusal) = first_short(tallies, rows) {
        return Some(refusal);
    }
    if let Some(reason) = first_overstay(network, rows) {
        return Some(Refusal::Network(reason));
    }
    first_late(delays).map(Refusal::Network)
}
