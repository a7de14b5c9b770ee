//! The records of all frames of a run.

ghost use Rattle.std.specs.Prelude.{◌≡◌, ◌<◌, ◌≤◌, length, IfOk};
ghost use Rattle.ats_num.specs.declared.time.TheConstants.{END};
ghost use Rattle.ats_trace.specs.HopRecord.{IsEligible};
ghost use Rattle.ats_trace.specs.Releases.{AreReleases, HaveFewPorts};
ghost use Rattle.ats_trace.specs.Stored.{row_of};
ghost use Rattle.ats_trace.specs.declared.run.TheConstants.{MAX_HOPS};
ghost use Rattle.ats_run_records.specs.Progress.{progress_at, opened, with_leg, with_hop, with_sent, with_ending};
ghost use Rattle.ats_run_records.specs.Progress.{finished, last_hop};

use crate::brief::Brief;
use crate::ends::Ends;
use crate::store::Store;
use crate::whole::Whole;
use ats_group::Verdict;
use ats_network::Network;
use ats_num::Ps;
use ats_trace::{Ending, HopRecord, Release, Run};
use std::alloc::{AllocError, Global};
use std::marker::Model;

/// What has happened so far to each frame of a run along each of its legs. A leg is named by its row: first stand the
/// rows of the trunks, by frame number, and then those of the copies, frame by frame. Contracts see these rows in one
/// list, each with the frame's number and release, the leg's number among those of its sender, how many hop records
/// there may be along it, those that there are, and the ending; and for each frame the place of its first copy.
#[derive(Drop)]
pub struct Records<S: Store> {
    store: S,
}

impl<S: Store> Model for Records<S> {
    ghost use Rattle.ats_run_records.specs.Progress.{Ledger};

    ghost Value = { Ledger };

    ghost view = { λ r. S.ledger r.store };
}

impl<S: Store> Records<S> {
    /// The number of rows: of the legs of all frames.
    pub fn len(&self) -> usize
        ensures value { result ≡ length self.now.legs }
        ensures bounded { length self.now.legs ≤ MAX_HOPS }
    {
        self.store.len()
    }

    /// The row of a frame's leg, which is counted from 0 among the legs of its sender.
    pub fn row_of(&self, frame: u32, leg: u32) -> u32
        requires frame { frame < length self.now.firsts }
        requires there { row_of self.now.firsts frame leg < length self.now.legs }
        ensures { result ≡ row_of self.now.firsts frame leg }
    {
        self.store.row_of(frame, leg)
    }

    /// The number of the frame of a row.
    pub fn frame(&self, row: u32) -> u32
        requires { row < length self.now.legs }
        ensures { result ≡ (progress_at self.now.legs row).frame }
    {
        self.store.frame(row)
    }

    /// The number of the leg of a row among the legs of its sender: 0 for a trunk.
    pub fn leg(&self, row: u32) -> u32
        requires { row < length self.now.legs }
        ensures { result ≡ (progress_at self.now.legs row).leg }
    {
        self.store.leg(row)
    }

    /// The release of the frame of a row.
    pub fn release(&self, row: u32) -> Release
        requires { row < length self.now.legs }
        ensures { result ≡ (progress_at self.now.legs row).release }
    {
        self.store.release(row)
    }

    /// How many hop records a row has.
    pub fn hops(&self, row: u32) -> u32
        requires { row < length self.now.legs }
        ensures { result ≡ length (progress_at self.now.legs row).hops }
    {
        self.store.hops(row)
    }

    /// The verdict of the last hop record of a row, which has one.
    pub fn verdict(&self, row: u32) -> Verdict
        requires row { row < length self.now.legs }
        requires last { 0 < length (progress_at self.now.legs row).hops }
        ensures { result ≡ (last_hop (progress_at self.now.legs row)).verdict }
    {
        self.store.verdict(row)
    }

    /// Adds one hop record more to those of a row, which has fewer than it may get. It takes no memory.
    pub fn push(&mut self, row: u32, hop: HopRecord)
        requires row { row < length self.old.legs }
        requires room { length (progress_at self.old.legs row).hops < (progress_at self.old.legs row).room }
        ensures { self.new ≡ with_leg self.old row (with_hop (progress_at self.old.legs row) hop) }
    {
        self.store.push(row, hop);
    }

    /// Tells in the last hop record of a row when its transmission starts and ends. Conditions: the frame is eligible
    /// there, and the start is below `END`. It takes no memory.
    pub fn send(&mut self, row: u32, start: Ps, end: Ps)
        requires row { row < length self.old.legs }
        requires last { 0 < length (progress_at self.old.legs row).hops }
        requires eligible { IsEligible (last_hop (progress_at self.old.legs row)).verdict }
        requires in_time { start.0 < END }
        ensures { self.new ≡ with_leg self.old row (with_sent (progress_at self.old.legs row) start end) }
    {
        self.store.send(row, start, end);
    }

    /// Tells how the leg of a row ended. It takes no memory.
    pub fn close(&mut self, row: u32, ending: Ending)
        requires { row < length self.old.legs }
        ensures { self.new ≡ with_leg self.old row (with_ending (progress_at self.old.legs row) ending) }
    {
        self.store.close(row, ending);
    }
}

impl Records<Whole> {
    /// The records of frames with these releases over a network, along each leg of which there may be a hop record for
    /// each of the leg's ports, and all are kept. Conditions: the releases may be run on the network, and the ports of
    /// the frames are together at most 3,200,000. `AllocError` where memory runs out.
    pub fn open(
        alloc: Global,
        net: &Network,
        releases: &[Release],
    ) -> Result<Records<Whole>, AllocError>
        requires releases { AreReleases net.now releases.now }
        requires few_ports { HaveFewPorts net.now releases.now }
        ensures { IfOk result (λ records. records ≡ opened net.now releases.now) }
    {
        let store = Whole::open(alloc, net, releases)?;
        Ok(Records { store })
    }

    /// The run of these records, in which a leg of which no ending was told has ended with `Discard`. It takes no
    /// memory.
    pub fn finish(self) -> Run
        ensures { result ≡ finished self }
    {
        self.store.finish()
    }
}

impl Records<Brief> {
    /// As `open`, but of the hop records of a leg no more is kept than their number and the last verdict. The releases
    /// are kept as they are given.
    pub fn open_brief(
        alloc: Global,
        net: &Network,
        releases: Vec<Release>,
    ) -> Result<Records<Brief>, AllocError>
        requires releases { AreReleases net.now releases.items }
        requires few_ports { HaveFewPorts net.now releases.items }
        ensures { IfOk result (λ records. records ≡ opened net.now releases.items) }
    {
        let store = Brief::open(alloc, net, releases)?;
        Ok(Records { store })
    }

    /// How the frames of the run of these records ended, where a leg of which no ending was told has ended with
    /// `Discard`. It takes no memory.
    pub fn finish_brief(self) -> Ends
        ensures { result ≡ finished self }
    {
        self.store.finish()
    }
}
