//! The measure of all releases of a network.

ghost use Rattle.std.specs.Prelude.{◌≡◌, ◌<◌, length, IfOk};
ghost use Rattle.ats_network.specs.Network.{senders_of};
ghost use Rattle.ats_trace.specs.Releases.{AreReleases};
ghost use Rattle.ats_fit.specs.Measured.{AreMeasured};
ghost use Rattle.ats_fit.specs.Steps.{AreFirst, AreTold, rate_of};

use crate::gauge::Gauge;
use crate::measured::Measured;
use ats_network::{Network, Sender};
use ats_num::Rate;
use ats_trace::Release;
use std::alloc::{AllocError, Global};

/// What is measured of these releases, for each sender of a network: first the streams, then the flows, in their order.
/// Conditions: there are at most 200,000 releases, none is earlier than one before it or later than
/// 100,000,000,000,000,000 ps, each is of a sender of the network, and octets are 64 to 2000. It takes time linear in
/// the numbers of senders and releases. `AllocError` where there is no memory for one gauge and one answer a sender.
pub fn fit(
    alloc: Global,
    network: &Network,
    releases: &[Release],
) -> Result<Vec<Measured>, AllocError>
    requires { AreReleases network.now releases.now }
    ensures { IfOk result (λ measured. AreMeasured network.now releases.now measured.items) }
{
    let mut gauges = gauges_for(alloc, network)?;
    for release in releases {
        gauges[release.sender as usize].take(release);
    }
    told(alloc, &gauges)
}

// A gauge for each sender of a network, which has taken no release.
fn gauges_for(alloc: Global, network: &Network) -> Result<Vec<Gauge>, AllocError>
    ensures { IfOk result (λ gauges. AreFirst network.now gauges.items) }
{
    let senders = network.senders();
    let mut gauges = Vec::with_capacity(alloc, senders as usize)?;
    for sender in 0..senders {
        gauges.push(Gauge::new(rate_of(network, sender)))?;
    }
    Ok(gauges)
}

// The rate of a sender, where it is a stream.
fn rate_of(network: &Network, sender: u32) -> Option<Rate>
    requires { sender < length (senders_of network.now) }
    ensures { result ≡ rate_of network.now sender }
{
    match network.sender(sender) {
        Sender::Stream(stream) => Some(stream.rate()),
        Sender::Flow(_) => None,
    }
}

// What each gauge tells, in order.
fn told(alloc: Global, gauges: &[Gauge]) -> Result<Vec<Measured>, AllocError>
    ensures { IfOk result (λ measured. AreTold gauges.now measured.items) }
{
    let mut measured = Vec::with_capacity(alloc, gauges.len())?;
    for gauge in gauges {
        measured.push(gauge.measured())?;
    }
    Ok(measured)
}
