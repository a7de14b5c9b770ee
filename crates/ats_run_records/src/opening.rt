//! What records are opened with.

ghost use Rattle.std.specs.Prelude.{◌≡◌, ◌+◌, ◌<◌, ◌≤◌, [], ◌∷◌, length, sum_by, IfOk, OnOk};
ghost use Rattle.ats_network.specs.Network.{senders_of};
ghost use Rattle.ats_network.specs.Senders.{sender_at};
ghost use Rattle.ats_trace.specs.Releases.{AreReleases, HaveFewPorts};
ghost use Rattle.ats_trace.specs.declared.run.TheConstants.{MAX_HOPS};
ghost use Rattle.ats_run_records.specs.Opening.{AreAdded, AreOpened};
ghost use Rattle.ats_run_records.specs.Progress.{Progress, copies_of_frame, firsts_from, leg_opened, no_hop, opened};

use ats_group::Verdict;
use ats_network::Network;
use ats_num::Ps;
use ats_streams::path::MAX_PORTS;
use ats_trace::{Ending, HopRecord, Journey, Release, Span};
use std::alloc::{AllocError, Global};

/// The most hop records along a leg: one for each of its ports.
pub const MAX_ROOM: u32 = MAX_PORTS as u32;

/// Rows, spans and frames of legs, and how many hop records there may be along all of them.
#[derive(Drop)]
pub(crate) struct Rows {
    pub(crate) journeys: Vec<Journey>,
    pub(crate) spans: Vec<Span>,
    pub(crate) frames: Vec<u32>,
    pub(crate) room: u32,
}

impl Rows {
    // Adds a leg of a frame with this release, along which nothing has happened yet.
    fn add(
        &mut self,
        net: &Network,
        frame: u32,
        release: &Release,
        leg: u32,
    ) -> Result<(), AllocError>
        requires sender { release.now.sender < length (senders_of net.now) }
        requires leg { leg ≤ length (sender_at net.now release.now.sender).branches }
        requires few { self.old.room ≤ MAX_HOPS }
        ensures { OnOk result (AreAdded (leg_opened net.now frame release.now leg ∷ []) self.old self.new) }
    {
        let room = net.sender_leg(release.sender, leg).len();
        self.journeys.push(Journey {
            release: *release,
            ending: Ending::Discard,
        })?;
        self.spans.push(Span {
            first: self.room,
            leg: leg as u16,
            count: 0,
            room: room as u8,
        })?;
        self.frames.push(frame)?;
        self.room += room as u32;
        Ok(())
    }
}

/// The place of the first copy of each frame with these releases among all rows, of which the trunks are the first;
/// and how many rows there are.
pub(crate) fn firsts_of(
    alloc: Global,
    net: &Network,
    releases: &[Release],
) -> Result<(Vec<u32>, usize), AllocError>
    requires releases { AreReleases net.now releases.now }
    requires few_ports { HaveFewPorts net.now releases.now }
    ensures firsts { IfOk result (λ made. made.0.items ≡ firsts_from net.now (length releases.now) releases.now) }
    ensures rows { IfOk result (λ made. made.1 ≡ length (opened net.now releases.now).legs) }
{
    let _rules = net.topology(); // for what a network keeps
    let mut firsts = Vec::with_capacity(alloc, releases.len())?;
    let mut next = releases.len();
    for release in releases {
        firsts.push(next as u32)?;
        next += net.sender_legs(release.sender) as usize - 1;
    }
    Ok((firsts, next))
}

// The rows of the copies of a frame are added.
fn add_copies(
    rows: &mut Rows,
    net: &Network,
    frame: u32,
    release: &Release,
) -> Result<(), AllocError>
    requires sender { release.now.sender < length (senders_of net.now) }
    requires few { rows.old.room + sum_by (λ (leg : Progress). leg.room) (copies_of_frame net.now frame release.now)
        ≤ MAX_HOPS }
    ensures { OnOk result (AreAdded (copies_of_frame net.now frame release.now) rows.old rows.new) }
{
    for leg in 1..net.sender_legs(release.sender) {
        rows.add(net, frame, release, leg)?;
    }
    Ok(())
}

/// The rows of all legs of frames with these releases, of which there are so many.
pub(crate) fn rows_of(
    alloc: Global,
    net: &Network,
    releases: &[Release],
    count: usize,
) -> Result<Rows, AllocError>
    requires releases { AreReleases net.now releases.now }
    requires few_ports { HaveFewPorts net.now releases.now }
    ensures { IfOk result (AreOpened (opened net.now releases.now).legs) }
{
    let _rules = net.topology(); // for what a network keeps
    let mut rows = Rows {
        journeys: Vec::with_capacity(alloc, count)?,
        spans: Vec::with_capacity(alloc, count)?,
        frames: Vec::with_capacity(alloc, count)?,
        room: 0,
    };
    for (frame, release) in releases.iter().enumerate() {
        rows.add(net, frame as u32, release, 0)?;
    }
    for (frame, release) in releases.iter().enumerate() {
        add_copies(&mut rows, net, frame as u32, release)?;
    }
    Ok(rows)
}

/// Fills the rooms until records are made.
pub(crate) fn no_hop() -> HopRecord
    ensures { result ≡ no_hop }
{
    HopRecord::new(Ps(0), Verdict::Size)
}
