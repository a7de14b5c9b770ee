//! What one record comes to at a station.

ghost use Rattle.std.specs.Prelude.{◌≡◌, ◌<◌, ◌≤◌, length, IfSome, OnOk};
ghost use Rattle.ats_network.specs.Network.{senders_of};
ghost use Rattle.ats_capture.specs.Traffic.{release_at, stream_of};
ghost use Rattle.ats_trace.specs.Talker.{talker_of};
ghost use Rattle.ats_trace.specs.declared.run.TheConstants.{MAX_FRAMES, MAX_HOPS};

use crate::fault::JoinFault;
use ats_network::Network;
use ats_num::Ps;
use ats_num::time::PS_PER_NS;
use ats_pcap::Record;
use ats_trace::Release;
use ats_trace::run::{MAX_FRAMES, MAX_HOPS, MAX_RELEASE_PS};

// The stream of a station that a record belongs to.
pub(crate) fn stream_of(network: &Network, station: u32, record: &Record) -> Option<u32>
    ensures stream { result ≡ stream_of network.now station «record».now.identity }
    ensures within { IfSome result (λ stream. stream < length (senders_of network.now)) }
{
    let (address, vlan) = record.identity?;
    let stream = network.stream_identified(address, vlan)?;
    if talker_of(network, stream) != station {
        return None;
    }
    Some(stream)
}

// The station at which a stream begins.
fn talker_of(network: &Network, stream: u32) -> u32
    requires { stream < length (senders_of network.now) }
    ensures { result ≡ talker_of network.now stream }
{
    let first = network.sender_ports(stream)[0];
    network.topology().ports()[first as usize].from
}

// The release of a stream so many nanoseconds after the first record, behind so many others, which
// the record with this number makes, so that all frames have so many ports.
pub(crate) fn release_at(
    number: u32,
    before: usize,
    ports: usize,
    nanos: u64,
    sender: u32,
    octets: u32,
) -> Result<Release, JoinFault>
    ensures due { result ≡ release_at number before ports nanos sender octets }
    ensures few_ports { OnOk result (ports ≤ MAX_HOPS) }
{
    let at = u128::from(nanos) * u128::from(PS_PER_NS);
    if at > u128::from(MAX_RELEASE_PS) || before >= MAX_FRAMES || ports > MAX_HOPS {
        return Err(JoinFault::Limit(number));
    }
    Ok(Release {
        at: Ps(at as u64),
        sender,
        octets,
    })
}
