//! Records that are all kept.

ghost use Rattle.std.specs.Prelude.{◌≡◌, ◌<◌, ◌≤◌, length, IfOk};
ghost use Rattle.ats_trace.specs.Releases.{AreReleases, HaveFewPorts};
ghost use Rattle.ats_run_records.specs.Progress.{finished, opened, progress_at};

use crate::opening::{firsts_of, no_hop, rows_of};
use crate::store::Store;
use ats_group::Verdict;
use ats_network::Network;
use ats_num::Ps;
use ats_trace::{Ending, HopRecord, Journey, Release, Run, Span, row_of};
use std::alloc::{AllocError, Global};
use std::marker::Model;

/// Keeps each hop record of a run.
#[derive(Drop)]
pub struct Whole {
    journeys: Vec<Journey>,
    spans: Vec<Span>,
    frames: Vec<u32>, // for each row the number of its frame
    firsts: Vec<u32>, // for each frame the place of its first copy, or where it would be
    hops: Vec<HopRecord>,
}

impl Model for Whole {
    ghost use Rattle.ats_run_records.specs.Progress.{Ledger};

    ghost Value = { Ledger };

    ghost use Rattle.ats_run_records.specs.Inside.{AreRecords, ledger_of};

    ghost view = { λ r. ledger_of r.journeys.items r.spans.items r.frames.items r.firsts.items r.hops.items };

    ghost invariant = { λ r. AreRecords r.journeys.items r.spans.items r.frames.items r.firsts.items r.hops.items };
}

impl Whole {
    /// Nothing has happened yet to frames with these releases over a network. Conditions: the releases may be run on
    /// the network, and the ports of the frames are together at most 3,200,000. `AllocError` where memory runs out.
    pub fn open(alloc: Global, net: &Network, releases: &[Release]) -> Result<Whole, AllocError>
        requires releases { AreReleases net.now releases.now }
        requires few_ports { HaveFewPorts net.now releases.now }
        ensures { IfOk result (λ records. records ≡ opened net.now releases.now) }
    {
        let _rules = net.topology(); // for what a network keeps
        let (firsts, count) = firsts_of(alloc, net, releases)?;
        let rows = rows_of(alloc, net, releases, count)?;
        let hops = vec![in alloc; no_hop(); rows.room as usize]?;
        Ok(Whole {
            journeys: rows.journeys,
            spans: rows.spans,
            frames: rows.frames,
            firsts,
            hops,
        })
    }

    // The hop records of a row, in the order of the leg's ports.
    fn hops_of(&self, row: u32) -> &[HopRecord]
        requires { row < length self.now.legs }
        ensures { result.now ≡ (progress_at self.now.legs row).hops }
    {
        let span = self.spans[row as usize];
        let first = span.first as usize;
        &self.hops[first..first + span.count as usize]
    }

    /// The run of these records. It takes no memory.
    pub fn finish(self) -> Run
        ensures { result ≡ finished self }
    {
        Run::new(self.journeys, self.spans, self.firsts, self.hops)
    }
}

impl Store for Whole {
    ghost ledger = { λ whole. whole };

    fn len(&self) -> usize {
        self.journeys.len()
    }

    fn row_of(&self, frame: u32, leg: u32) -> u32 {
        row_of(&self.firsts, frame, leg) as u32
    }

    fn frame(&self, row: u32) -> u32 {
        self.frames[row as usize]
    }

    fn leg(&self, row: u32) -> u32 {
        u32::from(self.spans[row as usize].leg)
    }

    fn release(&self, row: u32) -> Release {
        self.journeys[row as usize].release
    }

    fn hops(&self, row: u32) -> u32 {
        u32::from(self.spans[row as usize].count)
    }

    fn verdict(&self, row: u32) -> Verdict {
        let hops = self.hops_of(row);
        hops[hops.len() - 1].verdict()
    }

    fn push(&mut self, row: u32, hop: HopRecord) {
        let span = &mut self.spans[row as usize];
        self.hops[span.first as usize + span.count as usize] = hop;
        span.count += 1;
    }

    fn send(&mut self, row: u32, start: Ps, end: Ps) {
        let span = self.spans[row as usize];
        let place = span.first as usize + span.count as usize - 1;
        self.hops[place].send(start, end);
    }

    fn close(&mut self, row: u32, ending: Ending) {
        self.journeys[row as usize].ending = ending;
    }
}
