//! The burst at a port.

ghost use Rattle.std.specs.Prelude.{◌≡◌, ◌++◌, ◌<◌, ◌≤◌, ℕ, length, replicate, IfOk, IsTrue, OnOk};
ghost use Rattle.ats_network.specs.Class.{class_at};
ghost use Rattle.ats_network.specs.Network.{IsNetwork, senders_of};
ghost use Rattle.ats_network.specs.Senders.{sender_at};
ghost use Rattle.ats_certificate.specs.PortSums.{uses};
ghost use Rattle.ats_trace.specs.Releases.{AreReleases, HaveFewPorts};
ghost use Rattle.ats_trace.specs.Talker.{KeepsBuckets};
ghost use Rattle.ats_witness.specs.Burst.{IsBurstFor, burst_of, greatest_travel};
ghost use Rattle.ats_witness.specs.Made.{AreReordered, by_sender, order_of, with_travel};

use crate::participant::taking_part;
use ats_network::Network;
use ats_num::Ps;
use ats_trace::Release;
use std::alloc::{AllocError, Global};

/// The burst at one of a stream's ports, as releases that may be run. The senders that have the port take part, with
/// longest frames: each stream whose class there is at least this stream's with as many as its burst holds whole, but
/// at most 40, and each other stream and each flow with one. The first are released so that they come to the port at
/// one moment if nothing delays them, the others a picosecond earlier. The releases are in the order of times and then
/// of senders, and by them every node keeps its buckets. It looks at the ports of each sender twice, and takes the
/// time of sorting the releases. `AllocError` where there is no memory for them, and as much again.
pub fn releases(
    alloc: Global,
    network: &Network,
    stream: u32,
    port: u32,
) -> Result<Vec<Release>, AllocError>
    requires stream { stream < length network.now.streams }
    requires port { IsTrue (uses port (sender_at network.now stream)) }
    ensures burst { IfOk result (λ releases. IsBurstFor network.now stream port releases.items) }
    ensures releases { IfOk result (λ releases. AreReleases network.now releases.items) }
    ensures few_ports { IfOk result (λ releases. HaveFewPorts network.now releases.items) }
    ensures keeps { IfOk result (λ releases. (node : ℕ) → KeepsBuckets network.now releases.items node) }
{
    let class = class_at(network, stream, port);
    in_order(by_sender(alloc, network, port, class)?)
}

// A stream's class at one of its ports.
fn class_at(network: &Network, stream: u32, port: u32) -> u8
    requires stream { stream < length network.now.streams }
    requires port { IsTrue (uses port (sender_at network.now stream)) }
    ensures class { result ≡ class_at (sender_at network.now stream) port }
    ensures rules { IsNetwork network.now }
{
    let _rules = network.topology(); // for what a network keeps
    match taking_part(network, stream, port) {
        Some(participant) => participant.class,
        None => unreachable!(),
    }
}

// The frames of the burst at a port for a class, sender by sender.
fn by_sender(
    alloc: Global,
    network: &Network,
    port: u32,
    class: u8,
) -> Result<Vec<Release>, AllocError>
    ensures { IfOk result (λ releases.
        releases.items ≡ by_sender network.now port class (length (senders_of network.now))) }
{
    let greatest = greatest_travel(network, port);
    let mut releases = Vec::new(alloc);
    for sender in 0..network.senders() {
        push_frames(&mut releases, network, sender, port, class, greatest)?;
    }
    Ok(releases)
}

// The greatest travel to a port.
fn greatest_travel(network: &Network, port: u32) -> u64
    ensures value { result ≡ greatest_travel network.now port }
    ensures most { result ≤ 231424000000 }
{
    let mut greatest = 0;
    for sender in 0..network.senders() {
        greatest = with_travel(greatest, network, sender, port);
    }
    greatest
}

// The greatest travel so far with one sender more.
fn with_travel(greatest: u64, network: &Network, sender: u32, port: u32) -> u64
    requires sender { sender < length (senders_of network.now) }
    requires most { greatest ≤ 231424000000 }
    ensures value { result ≡ with_travel network.now port greatest (sender_at network.now sender) }
    ensures most { result ≤ 231424000000 }
{
    match taking_part(network, sender, port) {
        Some(participant) => greatest.max(participant.travel),
        None => greatest,
    }
}

// Adds the frames of a sender.
fn push_frames(
    releases: &mut Vec<Release>,
    network: &Network,
    sender: u32,
    port: u32,
    class: u8,
    greatest: u64,
) -> Result<(), AllocError>
    requires sender { sender < length (senders_of network.now) }
    requires greatest { greatest ≡ greatest_travel network.now port }
    requires most { greatest ≤ 231424000000 }
    ensures { OnOk result
        (releases.new.items ≡ releases.old.items ++ burst_of network.now port class sender) }
{
    match taking_part(network, sender, port) {
        Some(participant) => {
            let release = Release {
                at: Ps(participant.time(class, greatest)),
                sender,
                octets: participant.max_octets,
            };
            push_copies(releases, release, participant.frames(class))
        }
        None => Ok(()),
    }
}

// Adds a release so many times.
fn push_copies(releases: &mut Vec<Release>, release: Release, count: u64) -> Result<(), AllocError>
    ensures { OnOk result (releases.new.items ≡ releases.old.items ++ replicate count release) }
{
    for _ in 0..count {
        releases.push(release)?;
    }
    Ok(())
}

// Releases by time and then by sender.
fn in_order(mut releases: Vec<Release>) -> Result<Vec<Release>, AllocError>
    ensures { IfOk result (λ ordered. AreReordered releases.items ordered.items) }
{
    releases.sort_by_key(|release| order_of(release))?;
    Ok(releases)
}

// Where a release stands among others.
fn order_of(release: &Release) -> u128
    ensures { result ≡ order_of release.now }
{
    let (at, sender) = (release.at.0, release.sender);
    u128::from(at) * (1 << 32) + u128::from(sender)
}
