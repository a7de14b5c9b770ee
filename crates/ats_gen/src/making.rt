//! The making of one frame.

ghost use Rattle.std.specs.Prelude.{◌≡◌, ℕ, ◌<◌, ◌≤◌, [], ◌∷◌, ◌++◌, length, IfOk, IfErr, OnOk};
ghost use Rattle.ats_num.specs.declared.time.TheConstants.{END};
ghost use Rattle.ats_streams.specs.Traffic.{IsRuled};
ghost use Rattle.ats_trace.specs.Eligibility.{declared_by};
ghost use Rattle.ats_trace.specs.Releases.{ports_of_frames};
ghost use Rattle.ats_trace.specs.declared.run.TheConstants.{MAX_FRAMES, MAX_RELEASE_PS};
ghost use Rattle.ats_gen.specs.Made.{made, octets_by, release_by};
ghost use Rattle.ats_gen.specs.Making.{AreSchedulers, IsPast};

use crate::fault::GenFault;
use ats_bucket::Scheduler;
use ats_network::Network;
use ats_num::{Failure, Ps, wire_bits};
use ats_trace::Release;
use ats_trace::run::MAX_RELEASE_PS;
use std::alloc::{AllocError, Global};

/// A scheduler for each stream of a network, whose bucket is full at time 0.
pub(crate) fn schedulers_for(alloc: Global, network: &Network) -> Result<Vec<Scheduler>, AllocError>
    ensures { IfOk result (λ schedulers. AreSchedulers network.now [] schedulers.items) }
{
    let streams = network.streams();
    let mut schedulers = Vec::with_capacity(alloc, streams.len())?;
    for stream in streams {
        schedulers.push(Scheduler::new(stream.rate(), stream.burst_bits()))?;
    }
    Ok(schedulers)
}

/// The ports of so many frames of the streams of a network, which take turns, each with those of its stream.
pub(crate) fn ports_of(network: &Network, count: u32) -> usize
    requires some { 0 < length network.now.streams }
    requires few { count ≤ MAX_FRAMES }
    ensures { (seed : ℕ) → result ≡ ports_of_frames network.now (made network.now seed count) }
{
    let streams = network.streams().len() as u32;
    let mut ports = 0;
    for frame in 0..count {
        ports += network.sender_ports(frame % streams).len();
    }
    ports
}

/// Octets that a stream declares, by what was drawn.
pub(crate) fn octets_for(network: &Network, stream: u32, drawn: u64) -> u32
    requires { stream < length network.now.streams }
    ensures value { result ≡ octets_by (declared_by network.now stream) drawn }
    ensures ruled { IsRuled (declared_by network.now stream) }
    ensures least { (declared_by network.now stream).min_octets ≤ result }
    ensures most { result ≤ (declared_by network.now stream).max_octets }
{
    let declared = network.streams()[stream as usize].declared();
    let sizes = declared.max_octets - declared.min_octets + 1;
    declared.min_octets + (drawn % u64::from(sizes)) as u32
}

/// Makes a frame of a stream: offers it to the stream's scheduler at this time, and adds its release to those made.
///
/// # Errors
///
/// `Limit` exactly where its release would be past the limit. `Failure::NoMemory` where memory runs out.
pub(crate) fn make(
    network: &Network,
    schedulers: &mut Vec<Scheduler>,
    made: &mut Vec<Release>,
    stream: u32,
    octets: u32,
    clock: Ps,
) -> Result<(), Failure<GenFault>>
    requires stream { stream < length network.now.streams }
    requires schedulers { AreSchedulers network.now made.old.items schedulers.old.items }
    requires ruled { IsRuled (declared_by network.now stream) }
    requires least { (declared_by network.now stream).min_octets ≤ octets }
    requires most { octets ≤ (declared_by network.now stream).max_octets }
    requires clock { clock.0 ≤ END }
    ensures made { OnOk result (made.new.items
        ≡ made.old.items ++ release_by network.now made.old.items stream octets clock.0 ∷ []) }
    ensures schedulers { OnOk result (AreSchedulers network.now made.new.items schedulers.new.items) }
    ensures within { OnOk result ((release_by network.now made.old.items stream octets clock.0).at.0 ≤ MAX_RELEASE_PS) }
    ensures past { IfErr result (IsPast (release_by network.now made.old.items stream octets clock.0)) }
{
    let bits = wire_bits(octets);
    let scheduler = &mut schedulers[stream as usize];
    let at = scheduler.propose(clock, Ps(0), bits);
    if at.0 > MAX_RELEASE_PS {
        return Err(Failure::Fault(GenFault::Limit));
    }
    scheduler.accept(at, bits);
    made.push(Release {
        at,
        sender: stream,
        octets,
    })?;
    Ok(())
}
