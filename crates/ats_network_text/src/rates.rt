//! What is printed of the rates and bursts of a stream where clocks change them.

ghost use Rattle.std.specs.Prelude.{◌≡◌, ◌++◌, ◌<◌, length, None, OnOk};
ghost use Rattle.std.specs.List.{flat_map, list_all};
ghost use Rattle.ats_network.specs.Rates.{committed_at};
ghost use Rattle.ats_network.specs.Senders.{sender_at};
ghost use Rattle.ats_settings.specs.Settings.{port_at_place};
ghost use Rattle.ats_network_text.specs.Text.{committed_text, hop_is_declared, hop_text, is_declared};
ghost use Rattle.ats_network_text.specs.Text.{rates_line, rates_text, scheduled_before};

use crate::printing::write_number;
use ats_clock::Committed;
use ats_network::{Network, committed_at, scheduled_at};
use ats_settings::place_before;
use std::alloc::AllocError;

/// The line of a stream's rates and bursts, where one of them is not as it declares. It asks for none of them where
/// each node goes by the ideal clock.
#[tactic(auto, unfolding(crate::specs::Text::rates_line))]
pub(crate) fn write_rates(
    out: &mut Vec<u8>,
    network: &Network,
    stream: u32,
) -> Result<(), AllocError>
    requires { stream < length network.now.streams }
    ensures { OnOk result
        (out.new.items ≡ out.old.items ++ rates_line network.now.topology (sender_at network.now stream)) }
{
    if has_declared_rates(network, stream) {
        return Ok(());
    }
    let name = network.streams()[stream as usize].name();
    out.extend_from_slice(b"rates ")?;
    out.extend_from_slice(name.bytes())?;
    write_hops(out, network, stream)?;
    out.extend_from_slice(b"\n")?;
    Ok(())
}

// Whether all rates and bursts are as the stream declares.
fn has_declared_rates(network: &Network, stream: u32) -> bool
    requires { stream < length network.now.streams }
    ensures { result ≡ list_all (hop_is_declared network.now.topology (sender_at network.now stream))
        (sender_at network.now stream).ports }
{
    network.topology().has_ideal_clocks() || has_declared_hops(network, stream)
}

// The same, asked of each port.
fn has_declared_hops(network: &Network, stream: u32) -> bool
    requires { stream < length network.now.streams }
    ensures { result ≡ list_all (hop_is_declared network.now.topology (sender_at network.now stream))
        (sender_at network.now stream).ports }
{
    for place in 0..network.sender_ports(stream).len() as u32 {
        if !has_declared_hop(network, stream, place) {
            return false;
        }
    }
    true
}

fn has_declared_hop(network: &Network, stream: u32, place: u32) -> bool
    requires stream { stream < length network.now.streams }
    requires place { place < length (sender_at network.now stream).ports }
    ensures { result ≡ hop_is_declared network.now.topology (sender_at network.now stream)
        (port_at_place network.now stream place) }
{
    let (scheduled, seen) = hop(network, stream, place);
    match scheduled {
        None => is_declared(network, stream, seen),
        Some(scheduled) => {
            is_declared(network, stream, scheduled) && is_declared(network, stream, seen)
        }
    }
}

// The words of the ports.
fn write_hops(out: &mut Vec<u8>, network: &Network, stream: u32) -> Result<(), AllocError>
    requires { stream < length network.now.streams }
    ensures { OnOk result (out.new.items ≡ out.old.items
        ++ flat_map (hop_text network.now.topology (sender_at network.now stream))
        (sender_at network.now stream).ports) }
{
    for place in 0..network.sender_ports(stream).len() as u32 {
        write_hop(out, network, stream, place)?;
    }
    Ok(())
}

// The words of the port at a place.
fn write_hop(
    out: &mut Vec<u8>,
    network: &Network,
    stream: u32,
    place: u32,
) -> Result<(), AllocError>
    requires stream { stream < length network.now.streams }
    requires place { place < length (sender_at network.now stream).ports }
    ensures { OnOk result (out.new.items ≡ out.old.items
        ++ hop_text network.now.topology (sender_at network.now stream) (port_at_place network.now stream place)) }
{
    let (scheduled, seen) = hop(network, stream, place);
    match scheduled {
        None => write_undeclared(out, network, stream, &seen),
        Some(scheduled) => write_both(out, &scheduled, &seen),
    }
}

// The word of a port where no port comes before it.
fn write_undeclared(
    out: &mut Vec<u8>,
    network: &Network,
    stream: u32,
    seen: &Committed,
) -> Result<(), AllocError>
    requires { stream < length network.now.streams }
    ensures { OnOk result (out.new.items ≡ out.old.items ++ rates_text (sender_at network.now stream) None seen.now) }
{
    if is_declared(network, stream, *seen) {
        return Ok(());
    }
    write_committed(out, *seen)
}

// The words of another port.
fn write_both(out: &mut Vec<u8>, scheduled: &Committed, seen: &Committed) -> Result<(), AllocError>
    ensures { OnOk result
        (out.new.items ≡ out.old.items ++ (committed_text scheduled.now ++ committed_text seen.now)) }
{
    write_committed(out, *scheduled)?;
    write_committed(out, *seen)
}

// A rate and a burst.
fn write_committed(out: &mut Vec<u8>, committed: Committed) -> Result<(), AllocError>
    ensures { OnOk result (out.new.items ≡ out.old.items ++ committed_text committed) }
{
    write_number(out, b" ", committed.rate.bps())?;
    write_number(out, b":", committed.burst_bits)
}

// Whether a rate and a burst are those that a stream declares.
fn is_declared(network: &Network, stream: u32, committed: Committed) -> bool
    requires { stream < length network.now.streams }
    ensures { result ≡ is_declared (sender_at network.now stream) committed }
{
    let declared = network.streams()[stream as usize].declared();
    committed.rate.bps() == declared.rate.bps() && committed.burst_bits == declared.burst_bits
}

// What a stream's scheduler has in front of the hop at a place, and what the hop sees of the stream.
fn hop(network: &Network, stream: u32, place: u32) -> (Option<Committed>, Committed)
    requires stream { stream < length network.now.streams }
    requires place { place < length (sender_at network.now stream).ports }
    ensures scheduled { result.0 ≡ scheduled_before network.now.topology (sender_at network.now stream)
        (port_at_place network.now stream place) }
    ensures seen { result.1 ≡ committed_at network.now.topology (port_at_place network.now stream place)
        (sender_at network.now stream) }
{
    let topology = network.topology();
    let declared = &network.streams()[stream as usize];
    let ports = network.sender_ports(stream);
    let seen = committed_at(topology, declared, ports[place as usize]);
    let Some(before) = place_before(network, stream, place) else {
        return (None, seen);
    };
    let scheduled = scheduled_at(topology, declared, ports[before as usize]);
    (Some(scheduled), seen)
}
