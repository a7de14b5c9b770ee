//! The judgement of all releases of a network.

ghost use Rattle.std.specs.Prelude.{◌+◌, ◌<◌, length, IfErr, OnOk};
ghost use Rattle.ats_conform.specs.Broken.{AreBrokenOrFails, Breaks, BreaksOrFails};
ghost use Rattle.ats_trace.specs.Talker.{IsDeclaredSize};
ghost use Rattle.ats_conform.specs.Releases.{AllKeepBuckets, release_at};
ghost use Rattle.ats_trace.specs.Releases.{AreReleases};
ghost use Rattle.ats_conform.specs.Steps.{AreMeters, KeepSoFar};

use crate::broken::Broken;
use crate::meter::Meter;
use crate::meters::meters_for;
use ats_network::Network;
use ats_num::{Failure, wire_bits};
use ats_trace::Release;
use std::alloc::Global;

/// Whether each node of a network keeps its buckets by these releases: whether each release of each stream and flow
/// has a declared size, and those of each stream conform to its declared rate and burst. Conditions: there are at most
/// 200,000 releases, none is earlier than one before it or later than 100,000,000,000,000,000 ps, each is of a sender
/// of the network, and octets are 64 to 2000. It takes time linear in the numbers of streams and releases, and room for
/// one meter a stream.
///
/// # Errors
///
/// The first frame with which the releases so far do not: as `Size` where it is outside its sizes, else as `Bucket`.
/// `Failure::NoMemory` where memory runs out.
pub fn conform(
    alloc: Global,
    network: &Network,
    releases: &[Release],
) -> Result<(), Failure<Broken>>
    requires { AreReleases network.now releases.now }
    ensures ok { OnOk result (AllKeepBuckets network.now releases.now) }
    ensures broken { IfErr result (AreBrokenOrFails network.now releases.now) }
    ensures err { IfErr result (BreaksOrFails network.now releases.now) }
{
    let mut meters = meters_for(alloc, network)?;
    for place in 0..releases.len() {
        judge(network, &mut meters, releases, place)?;
    }
    Ok(())
}

// Judges the release with this number, where those before it keep what is declared.
fn judge(
    network: &Network,
    meters: &mut Vec<Meter>,
    releases: &[Release],
    place: usize,
) -> Result<(), Broken>
    requires releases { AreReleases network.now releases.now }
    requires place { place < length releases.now }
    requires meters { AreMeters network.now releases.now place meters.old.items }
    requires before { KeepSoFar network.now releases.now place }
    ensures meters { OnOk result (AreMeters network.now releases.now (place + 1) meters.new.items) }
    ensures kept { OnOk result (KeepSoFar network.now releases.now (place + 1)) }
    ensures broken { IfErr result (Breaks network.now releases.now) }
{
    judge_size(network, releases, place)?;
    judge_bucket(network, meters, releases, place)
}

// Judges the size of the release with this number.
fn judge_size(network: &Network, releases: &[Release], place: usize) -> Result<(), Broken>
    requires releases { AreReleases network.now releases.now }
    requires place { place < length releases.now }
    requires before { KeepSoFar network.now releases.now place }
    ensures ok { OnOk result (IsDeclaredSize network.now (release_at releases.now place)) }
    ensures broken { IfErr result (Breaks network.now releases.now) }
{
    let release = releases[place];
    if network.sender(release.sender).allows(release.octets) {
        return Ok(());
    }
    Err(Broken::Size {
        frame: place as u32,
    })
}

// Hands the release with this number, which has a declared size, to the meter of its stream, where it is a stream's.
fn judge_bucket(
    network: &Network,
    meters: &mut Vec<Meter>,
    releases: &[Release],
    place: usize,
) -> Result<(), Broken>
    requires releases { AreReleases network.now releases.now }
    requires place { place < length releases.now }
    requires meters { AreMeters network.now releases.now place meters.old.items }
    requires before { KeepSoFar network.now releases.now place }
    requires size { IsDeclaredSize network.now (release_at releases.now place) }
    ensures meters { OnOk result (AreMeters network.now releases.now (place + 1) meters.new.items) }
    ensures kept { OnOk result (KeepSoFar network.now releases.now (place + 1)) }
    ensures broken { IfErr result (Breaks network.now releases.now) }
{
    let release = releases[place];
    let stream = release.sender as usize;
    if stream >= meters.len() {
        return Ok(());
    }
    let frame = place as u32;
    let meter = &mut meters[stream];
    match meter.take(frame, release.at, wire_bits(release.octets)) {
        Some(since) => Err(Broken::Bucket { since, frame }),
        None => Ok(()),
    }
}
