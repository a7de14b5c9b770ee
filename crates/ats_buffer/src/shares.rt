//! What streams may have at each port and class, and the buffers that this makes.

ghost use Rattle.std.specs.Prelude.{◌≡◌, ◌+◌, ◌^◌, ◌<◌, ◌≤◌, length, take, IfOk};
ghost use Rattle.std.specs.List.{concat};
ghost use Rattle.ats_network.specs.Senders.{sender_at};
ghost use Rattle.ats_trace.specs.Journey.{legs_at};
ghost use Rattle.ats_route_law.specs.Laws.{in_front_of};
ghost use Rattle.ats_certificate.specs.Certificate.{Holds};
ghost use Rattle.ats_buffer.specs.Buffer.{buffers_of, most_bits, stay_at, way_behind, way_by};
ghost use Rattle.ats_buffer.specs.Sums.{AreAdding, AreSums};

use crate::legs::class_of;
use crate::row_table::RowTable;
use ats_certificate::Certificate;
use ats_class_table::PortClassTable;
use ats_clock::Committed;
use ats_network::{Network, committed_at};
use ats_num::time::PS_PER_SECOND;
use std::alloc::{AllocError, Global};

/// The buffer of each row of a certificate that holds for a network, in bits, in the order of the rows: the sum, over
/// the streams with the row's class at its port, of the stream's burst and of what its rate gives, rounded down for
/// each stream by itself, in the time within which its frames that are there together became eligible. That time is the
/// wait and the transmission of the shortest frame by the row, and where a port of the stream leads to this port's
/// bridge also that port's spread and the wait by the row of the stream's class there; rate and burst are those that
/// that port sees, where there is one, else those that this one sees.
///
/// It takes time linear in the numbers of the streams' ports, of ports and of rows. `AllocError` where there is no
/// memory for the buffers, or for a row and a sum of each port and class.
pub fn buffers(
    alloc: Global,
    network: &Network,
    certificate: &Certificate,
) -> Result<Vec<u128>, AllocError>
    requires holds { Holds network.now certificate.now }
    ensures { IfOk result (λ buffers. buffers.items ≡ buffers_of network.now certificate.now) }
{
    let rows = RowTable::new(alloc, network.topology(), certificate)?;
    let sums = sums_of(alloc, network, &rows)?;
    let mut buffers = Vec::with_capacity(alloc, certificate.rows().len())?;
    for row in certificate.rows() {
        buffers.push(sums.get(row.port, row.class))?;
    }
    Ok(buffers)
}

// What the streams may have together at each port and class.
fn sums_of(
    alloc: Global,
    network: &Network,
    rows: &RowTable,
) -> Result<PortClassTable<u128>, AllocError>
    requires ports { rows.now.ports ≡ length network.now.topology.ports }
    requires holds { Holds network.now rows.now.rows }
    ensures { IfOk result (AreSums network.now rows.now.rows (length network.now.streams)) }
{
    let mut sums = PortClassTable::new(alloc, network.topology().ports().len(), 0)?;
    for stream in 0..network.streams().len() as u32 {
        add_shares(&mut sums, network, rows, stream);
    }
    Ok(sums)
}

// Adds what a stream may have at each of its ports, in the class that it has there.
fn add_shares(sums: &mut PortClassTable<u128>, network: &Network, rows: &RowTable, stream: u32)
    requires stream { stream < length network.now.streams }
    requires ports { rows.now.ports ≡ length network.now.topology.ports }
    requires holds { Holds network.now rows.now.rows }
    requires before { AreSums network.now rows.now.rows stream sums.old }
    ensures { AreSums network.now rows.now.rows (stream + 1) sums.new }
{
    for leg in 0..network.sender_legs(stream) {
        add_leg(sums, network, rows, stream, leg);
    }
}

// Adds what a stream may have at the ports of one leg, where what it may have at those of earlier legs is added.
fn add_leg(
    sums: &mut PortClassTable<u128>,
    network: &Network,
    rows: &RowTable,
    stream: u32,
    leg: u32,
)
    requires stream { stream < length network.now.streams }
    requires leg { leg ≤ length (sender_at network.now stream).branches }
    requires ports { rows.now.ports ≡ length network.now.topology.ports }
    requires holds { Holds network.now rows.now.rows }
    requires before { AreAdding network.now rows.now.rows stream
        (concat (take leg (legs_at network.now stream))) sums.old }
    ensures { AreAdding network.now rows.now.rows stream
        (concat (take (leg + 1) (legs_at network.now stream))) sums.new }
{
    let declared = &network.streams()[stream as usize];
    let front = way_to_leg(network, rows, stream, leg);
    let mut before = front.0;
    let mut way = front.1;
    for (hop, port) in network.sender_leg(stream, leg).iter().enumerate() {
        let class = class_of(network, stream, leg, hop as u32);
        let seen = committed_at(network.topology(), declared, before.unwrap_or(*port));
        let window = stay(network, rows, *port, class) + way;
        let sum = sums.get(*port, class) + bits_within(seen, window);
        sums.set(*port, class, sum);
        before = Some(*port);
        way = way_over(network, rows, *port, class);
    }
}

// The port that leads to the bridge where a stream's leg begins, and by how much the ways over it differ; nothing leads
// to the talker, where the trunk begins and branches may.
fn way_to_leg(network: &Network, rows: &RowTable, stream: u32, leg: u32) -> (Option<u32>, u128)
    requires stream { stream < length network.now.streams }
    requires leg { leg ≤ length (sender_at network.now stream).branches }
    requires ports { rows.now.ports ≡ length network.now.topology.ports }
    requires holds { Holds network.now rows.now.rows }
    ensures port { result.0 ≡ in_front_of (sender_at network.now stream) leg 0 }
    ensures way { result.1 ≡ way_behind network.now rows.now.rows (sender_at network.now stream)
        (in_front_of (sender_at network.now stream) leg 0) }
{
    if leg == 0 {
        return (None, 0);
    }
    let branch = network.streams()[stream as usize].branch(leg);
    if branch.hop == 0 {
        return (None, 0);
    }
    let port = network.sender_leg(stream, branch.leg)[branch.hop as usize - 1];
    let class = class_of(network, stream, branch.leg, branch.hop - 1);
    (Some(port), way_over(network, rows, port, class))
}

// The most bits of a window of time, of frames that conform to a rate and burst.
fn bits_within(seen: Committed, window: u128) -> u128
    requires { window < 2 ^ 64 }
    ensures { result ≡ most_bits seen window }
{
    let rate = u128::from(seen.rate.bps());
    u128::from(seen.burst_bits) + rate * window / u128::from(PS_PER_SECOND)
}

// How long a frame may be at a port, from its eligibility to the end of its transmission.
fn stay(network: &Network, rows: &RowTable, port: u32, class: u8) -> u128
    requires port { port < length network.now.topology.ports }
    requires ports { rows.now.ports ≡ length network.now.topology.ports }
    requires class { class ≤ 7 }
    ensures { result ≡ stay_at network.now rows.now.rows port class }
{
    match rows.row(port, class) {
        Some(row) => {
            let ps = network.topology().ports()[port as usize].ps_per_bit;
            row.wait + u128::from(ps) * u128::from(row.least)
        }
        None => 0,
    }
}

// By how much the ways of a class's frames over a port differ: its spread, and the wait there.
fn way_over(network: &Network, rows: &RowTable, port: u32, class: u8) -> u128
    requires port { port < length network.now.topology.ports }
    requires ports { rows.now.ports ≡ length network.now.topology.ports }
    requires class { class ≤ 7 }
    ensures { result ≡ way_by network.now rows.now.rows port class }
{
    let spread = u128::from(network.topology().ports()[port as usize].spread());
    match rows.row(port, class) {
        Some(row) => row.wait + spread,
        None => spread,
    }
}
