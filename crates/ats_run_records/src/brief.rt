//! Records of which no more is kept than a run goes by.

ghost use Rattle.std.specs.Prelude.{◌≡◌, ◌<◌, length, slice_index, IfOk};
ghost use Rattle.ats_trace.specs.Releases.{AreReleases, HaveFewPorts};
ghost use Rattle.ats_run_records.specs.Progress.{finished, opened};
ghost use Rattle.ats_run_records.specs.Brief.{frames_of};

use crate::ends::Ends;
use crate::opening::firsts_of;
use crate::store::Store;
use crate::track::Track;
use crate::tracks::tracks_of;
use ats_group::Verdict;
use ats_network::Network;
use ats_num::Ps;
use ats_trace::{Ending, HopRecord, Release, row_of};
use std::alloc::{AllocError, Global};
use std::marker::Model;

/// Keeps of the hop records of each leg how many they are and the last verdict, and no more.
#[derive(Drop)]
pub struct Brief {
    releases: Vec<Release>,
    firsts: Vec<u32>, // for each frame the place of its first copy, or where it would be
    copies: Vec<u32>, // for each row of a copy the number of its frame
    tracks: Vec<Track>,
}

impl Model for Brief {
    ghost use Rattle.ats_run_records.specs.Progress.{Ledger};

    ghost Value = { Ledger };

    ghost use Rattle.ats_run_records.specs.Brief.{AreKept, ledger_of};

    ghost view = { λ b. ledger_of b.releases.items b.firsts.items b.copies.items b.tracks.items };

    ghost invariant = { λ b. AreKept b.releases.items b.firsts.items b.copies.items b.tracks.items };
}

impl Brief {
    /// Nothing has happened yet to frames with these releases over a network. Conditions: the releases may be run on
    /// the network, and the ports of the frames are together at most 3,200,000. `AllocError` where memory runs out.
    pub fn open(alloc: Global, net: &Network, releases: Vec<Release>) -> Result<Brief, AllocError>
        requires releases { AreReleases net.now releases.items }
        requires few_ports { HaveFewPorts net.now releases.items }
        ensures { IfOk result (λ records. records ≡ opened net.now releases.items) }
    {
        let _rules = net.topology(); // for what a network keeps
        let (firsts, count) = firsts_of(alloc, net, &releases)?;
        let tracks = tracks_of(alloc, net, &releases, count)?;
        Ok(Brief {
            releases,
            firsts,
            copies: tracks.frames,
            tracks: tracks.legs,
        })
    }

    /// How the frames of the run of these records ended. It takes no memory.
    pub fn finish(self) -> Ends
        ensures { result ≡ finished self }
    {
        Ends {
            releases: self.releases,
            firsts: self.firsts,
            copies: self.copies,
            tracks: self.tracks,
        }
    }
}

// The number of the frame of a row, where so many frames have these copies.
fn frame_of(frames: usize, copies: &[u32], row: u32) -> u32
    requires { row < length (frames_of frames copies.now) }
    ensures { result ≡ slice_index (frames_of frames copies.now) row }
{
    let row = row as usize;
    if row < frames {
        return row as u32;
    }
    copies[row - frames]
}

impl Store for Brief {
    ghost ledger = { λ brief. brief };

    fn len(&self) -> usize {
        self.tracks.len()
    }

    fn row_of(&self, frame: u32, leg: u32) -> u32 {
        row_of(&self.firsts, frame, leg) as u32
    }

    fn frame(&self, row: u32) -> u32 {
        frame_of(self.releases.len(), &self.copies, row)
    }

    fn leg(&self, row: u32) -> u32 {
        self.tracks[row as usize].leg()
    }

    fn release(&self, row: u32) -> Release {
        self.releases[self.frame(row) as usize]
    }

    fn hops(&self, row: u32) -> u32 {
        self.tracks[row as usize].hops()
    }

    fn verdict(&self, row: u32) -> Verdict {
        self.tracks[row as usize].verdict()
    }

    fn push(&mut self, row: u32, hop: HopRecord) {
        self.tracks[row as usize].push(hop);
    }

    fn send(&mut self, row: u32, start: Ps, end: Ps) {
        self.tracks[row as usize].send(start, end);
    }

    fn close(&mut self, row: u32, ending: Ending) {
        self.tracks[row as usize].close(ending);
    }
}
