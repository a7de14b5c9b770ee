//! The made releases.

ghost use Rattle.std.specs.Prelude.{◌≡◌, ℕ, ◌≤◌, None, IfOk, IfErr, OnOk};
ghost use Rattle.ats_num.specs.Failure.{IsDue};
ghost use Rattle.ats_trace.specs.Releases.{AreReleases, HaveFewPorts};
ghost use Rattle.ats_trace.specs.Talker.{KeepsBuckets};
ghost use Rattle.ats_trace.specs.declared.run.TheConstants.{MAX_FRAMES};
ghost use Rattle.ats_gen.specs.Made.{AreByTime, AreMade, gen_fault};

use crate::draws::Draws;
use crate::fault::GenFault;
use crate::making::{make, octets_for, ports_of, schedulers_for};
use ats_network::Network;
use ats_num::{Failure, Ps};
use ats_trace::Release;
use ats_trace::run::MAX_HOPS;
use std::alloc::{AllocError, Global};

/// The clock is raised by less than this after each frame, in picoseconds.
pub const MAX_PAUSE_PS: u64 = 2_000_000;

/// The releases of so many frames, at most 200,000, that the stated generator makes from a seed for the streams of a
/// network, which take turns: by time, and at equal times in the order in which they were made. By them every node
/// keeps its buckets. It takes time linear in the count, but for the sorting.
///
/// # Errors
///
/// The first of these: `NoStream` exactly where the network has no stream; `Limit` exactly where a release would be
/// later than 100,000,000,000,000,000 ps, or the ports of the frames, each with those of its stream, would be together
/// more than 3,200,000. `Failure::NoMemory` where memory runs out.
pub fn schedule(
    alloc: Global,
    network: &Network,
    seed: u64,
    count: u32,
) -> Result<Vec<Release>, Failure<GenFault>>
    requires { count ≤ MAX_FRAMES }
    ensures made { IfOk result (λ releases. AreMade network.now seed count releases.items) }
    ensures sound { OnOk result (gen_fault network.now seed count ≡ None) }
    ensures releases { IfOk result (λ releases. AreReleases network.now releases.items) }
    ensures few_ports { IfOk result (λ releases. HaveFewPorts network.now releases.items) }
    ensures keeps { IfOk result (λ releases. (node : ℕ) → KeepsBuckets network.now releases.items node) }
    ensures fault { IfErr result (λ fault. IsDue fault (gen_fault network.now seed count)) }
{
    let streams = network.streams().len() as u32;
    if streams == 0 {
        return Err(Failure::Fault(GenFault::NoStream));
    }
    if ports_of(network, count) > MAX_HOPS {
        return Err(Failure::Fault(GenFault::Limit));
    }
    let mut schedulers = schedulers_for(alloc, network)?;
    let mut made = Vec::with_capacity(alloc, count as usize)?;
    let mut draws = Draws { state: seed };
    let mut clock = 0;
    for frame in 0..count {
        let stream = frame % streams;
        let octets = octets_for(network, stream, draws.draw());
        make(
            network,
            &mut schedulers,
            &mut made,
            stream,
            octets,
            Ps(clock),
        )?;
        clock += draws.draw() % MAX_PAUSE_PS;
    }
    Ok(by_time(made)?)
}

// Releases by time, and at equal times in the order that they had.
fn by_time(mut made: Vec<Release>) -> Result<Vec<Release>, AllocError>
    ensures { IfOk result (λ releases. AreByTime made.items releases.items) }
{
    made.sort_by_key(|release| release.at.0)?;
    Ok(made)
}
