//! The release that a record writes.

ghost use Rattle.std.specs.Prelude.{◌≡◌, ◌+◌, ◌≤◌, ◌<◌, length, IfOk};
ghost use Rattle.ats_num.specs.Failure.{or_fault};
ghost use Rattle.ats_num.specs.Number.{number_of};
ghost use Rattle.ats_num.specs.Wire.{IsFrameSize};
ghost use Rattle.ats_network.specs.Network.{senders_of};
ghost use Rattle.ats_schedule.specs.Reading.{in_order, in_size, number_in, release_after, record_after, sender_in};
ghost use Rattle.ats_schedule.specs.Reading.{within_limits};
ghost use Rattle.ats_schedule.specs.Releases.{Follows, last_time};
ghost use Rattle.ats_trace.specs.Releases.{ports_of_frames};
ghost use Rattle.ats_trace.specs.declared.run.TheConstants.{MAX_FRAMES, MAX_HOPS, MAX_RELEASE_PS};

use crate::fault::ScheduleFault;
use crate::recent::Recent;
use ats_csv::Records;
use ats_network::Network;
use ats_num::wire::{MAX_OCTETS, MIN_OCTETS};
use ats_num::{Ps, number};
use ats_trace::Release;
use ats_trace::run::{MAX_FRAMES, MAX_HOPS, MAX_RELEASE_PS};

// The number of the record that follows those of these releases.
pub(crate) fn record_after(releases: &[Release]) -> u32
    requires { length releases.now ≤ MAX_FRAMES }
    ensures { result ≡ record_after releases.now }
{
    releases.len() as u32 + 2
}

// The release that the record with these three fields writes, behind the releases before it, whose frames have so many
// ports.
#[tactic(auto, unfolding(crate::specs::Reading::release_after))]
pub(crate) fn release_after(
    recent: &mut Recent,
    releases: &[Release],
    ports: usize,
    network: &Network,
    records: &Records,
) -> Result<Release, ScheduleFault>
    requires few { length releases.now ≤ MAX_FRAMES }
    requires ports { ports ≡ ports_of_frames network.now releases.now }
    requires few_ports { ports ≤ MAX_HOPS }
    requires fields { length records.now.fields ≡ 3 }
    ensures due { result ≡ release_after network.now releases.now records.now.fields }
    ensures follows { IfOk result (Follows network.now releases.now) }
{
    let n = record_after(releases);
    let sender = sender_in(recent, network, n, records.field(1))?;
    let at = number_in(n, records.field(0))?;
    let octets = number_in(n, records.field(2))?;
    let octets = in_size(n, octets)?;
    let at = in_order(n, last_time(releases), at)?;
    let ports = ports + network.sender_ports(sender).len();
    let at = within_limits(n, releases.len(), ports, at)?;
    Ok(Release {
        at: Ps(at),
        sender,
        octets,
    })
}

// The sender that a text in record n names.
fn sender_in(
    recent: &mut Recent,
    network: &Network,
    n: u32,
    text: &[u8],
) -> Result<u32, ScheduleFault>
    ensures due { result ≡ sender_in network.now n text.now }
    ensures within { IfOk result (λ sender. sender < length (senders_of network.now)) }
{
    recent
        .sender_named(network, text)
        .ok_or(ScheduleFault::UnknownName(n))
}

// The number that a text in record n writes.
fn number_in(n: u32, text: &[u8]) -> Result<u128, ScheduleFault>
    ensures { result ≡ number_in n text.now }
{
    number(text).ok_or(ScheduleFault::BadNumber(n))
}

// These octets of record n, where they make a frame.
fn in_size(n: u32, octets: u128) -> Result<u32, ScheduleFault>
    ensures due { result ≡ in_size n octets }
    ensures size { IfOk result IsFrameSize }
{
    if octets < u128::from(MIN_OCTETS) || octets > u128::from(MAX_OCTETS) {
        return Err(ScheduleFault::BadSize(n));
    }
    Ok(octets as u32)
}

// The time of the last release, 0 where there is none.
fn last_time(releases: &[Release]) -> u64
    ensures { result ≡ last_time releases.now }
{
    match releases.last() {
        Some(last) => last.at.0,
        None => 0,
    }
}

// This time of record n, where it is not before the last one.
fn in_order(n: u32, last: u64, at: u128) -> Result<u128, ScheduleFault>
    ensures due { result ≡ in_order n last at }
    ensures later { IfOk result (λ at. last ≤ at) }
{
    if at < u128::from(last) {
        return Err(ScheduleFault::TimeBack(n));
    }
    Ok(at)
}

// This time of record n, which follows so many releases, where there may be one more at this time, so that all frames
// have so many ports.
fn within_limits(n: u32, count: usize, ports: usize, at: u128) -> Result<u64, ScheduleFault>
    ensures due { result ≡ within_limits n count ports at }
    ensures time { IfOk result (λ at. at ≤ MAX_RELEASE_PS) }
    ensures room { IfOk result (λ at. count < MAX_FRAMES) }
    ensures ports { IfOk result (λ at. ports ≤ MAX_HOPS) }
{
    if at > u128::from(MAX_RELEASE_PS) || count >= MAX_FRAMES || ports > MAX_HOPS {
        return Err(ScheduleFault::Limit(n));
    }
    Ok(at as u64)
}
