//! The legs of all frames, along which nothing has happened yet and no hop record will be kept.

ghost use Rattle.std.specs.Prelude.{◌≡◌, ◌≤◌, ◌<◌, length, map, OnOk, IfOk};
ghost use Rattle.ats_network.specs.Network.{senders_of};
ghost use Rattle.ats_network.specs.Senders.{sender_at};
ghost use Rattle.ats_trace.specs.Releases.{AreReleases, HaveFewPorts};
ghost use Rattle.ats_run_records.specs.Brief.{AreAllBegun, AreBegun, begun};
ghost use Rattle.ats_run_records.specs.Progress.{copies_of_frame, leg_opened, trunks_opened};

use crate::track::Track;
use ats_network::Network;
use ats_trace::Release;
use std::alloc::{AllocError, Global};

/// The legs of all frames by row, and for each copy the number of its frame.
#[derive(Drop)]
pub(crate) struct Tracks {
    pub(crate) legs: Vec<Track>,
    pub(crate) frames: Vec<u32>,
}

// A leg of a frame with this release, along which nothing has happened.
fn track_of(net: &Network, release: &Release, leg: u32) -> Track
    requires sender { release.now.sender < length (senders_of net.now) }
    requires leg { leg ≤ length (sender_at net.now release.now.sender).branches }
    ensures { result ≡ begun (leg_opened net.now 0 release.now leg) }
{
    let room = net.sender_leg(release.sender, leg).len();
    Track::new(leg as u16, room as u8)
}

// The trunks of frames with these releases; there will be so many legs.
fn trunks_of(
    alloc: Global,
    net: &Network,
    releases: &[Release],
    count: usize,
) -> Result<Vec<Track>, AllocError>
    requires releases { AreReleases net.now releases.now }
    ensures { IfOk result (λ legs. legs.items ≡ map begun (trunks_opened net.now 0 releases.now)) }
{
    let mut legs = Vec::with_capacity(alloc, count)?;
    for release in releases {
        legs.push(track_of(net, release, 0))?;
    }
    Ok(legs)
}

// The legs of the copies of a frame are added.
fn add_copies(
    tracks: &mut Tracks,
    net: &Network,
    frame: u32,
    release: &Release,
) -> Result<(), AllocError>
    requires sender { release.now.sender < length (senders_of net.now) }
    ensures { OnOk result (AreBegun (copies_of_frame net.now frame release.now) tracks.old tracks.new) }
{
    for leg in 1..net.sender_legs(release.sender) {
        tracks.legs.push(track_of(net, release, leg))?;
        tracks.frames.push(frame)?;
    }
    Ok(())
}

/// The legs of all frames with these releases, of which there are so many.
pub(crate) fn tracks_of(
    alloc: Global,
    net: &Network,
    releases: &[Release],
    count: usize,
) -> Result<Tracks, AllocError>
    requires releases { AreReleases net.now releases.now }
    requires few_ports { HaveFewPorts net.now releases.now }
    requires count { length releases.now ≤ count }
    ensures { IfOk result (AreAllBegun net.now releases.now) }
{
    let mut tracks = Tracks {
        legs: trunks_of(alloc, net, releases, count)?,
        frames: Vec::with_capacity(alloc, count - releases.len())?,
    };
    for (frame, release) in releases.iter().enumerate() {
        add_copies(&mut tracks, net, frame as u32, release)?;
    }
    Ok(tracks)
}
