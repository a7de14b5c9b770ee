//! A run: what happened to all frames.

ghost use Rattle.std.specs.Prelude.{◌≡◌, ◌↔◌, ◌<◌, ◌≤◌, [], IsTrue, length, map};
ghost use Rattle.ats_trace.specs.Journey.{legs_in};
ghost use Rattle.ats_trace.specs.Stored.{AreRows, end_of, journey_of, leg_in, row_of, travel_at, travels_of};

use crate::hop_record::HopRecord;
use crate::journey::{Ending, Journey, Span};
use std::marker::Model;

/// The most frames of a run.
pub const MAX_FRAMES: usize = 200_000;

/// The most ports of all frames of a run together, where a frame has those of its sender.
pub const MAX_HOPS: usize = 3_200_000;

/// The greatest time of a release, in picoseconds.
pub const MAX_RELEASE_PS: u64 = 100_000_000_000_000_000;

/// What happened to each frame of a run, by frame number. Contracts see one list with the release of each frame, and
/// with the hop records and the ending of its trunk and of each of its copies. Rows and spans are those of the trunks,
/// by frame number, and then those of the copies, frame by frame.
#[derive(Drop)]
pub struct Run {
    journeys: Vec<Journey>,
    spans: Vec<Span>,
    firsts: Vec<u32>, // for each frame the place of its first copy, or where it would be
    hops: Vec<HopRecord>,
}

impl Model for Run {
    ghost use Rattle.std.specs.Prelude.{List};
    ghost use Rattle.ats_trace.specs.Journey.{Travel};

    ghost Value = { List Travel };

    ghost use Rattle.ats_trace.specs.Stored.{AreRows, travels_of};

    ghost view = { λ r. travels_of r.journeys.items r.spans.items r.firsts.items r.hops.items };

    ghost invariant = { λ r. AreRows r.journeys.items r.spans.items r.firsts.items r.hops.items };
}

impl Run {
    /// The run of these rows, at most 3,200,000, whose hop records are in `hops`: for each row those that its span
    /// names. The first rows are those of the trunks, one for each of `firsts`, of which there are at most 200,000; the
    /// copies of each frame have the rows from that place on, up to those of the next frame. Conditions: these places
    /// ascend, behind the trunks' rows; there are as many spans as rows, and each lies within `hops`. It takes no
    /// memory.
    pub fn new(rows: Vec<Journey>, spans: Vec<Span>, firsts: Vec<u32>, hops: Vec<HopRecord>) -> Run
        requires { AreRows rows.items spans.items firsts.items hops.items }
        ensures { result ≡ travels_of rows.items spans.items firsts.items hops.items }
    {
        Run {
            journeys: rows,
            spans,
            firsts,
            hops,
        }
    }

    /// The number of frames.
    pub fn len(&self) -> usize
        ensures value { result ≡ length self.now }
        ensures bounded { length self.now ≤ MAX_FRAMES }
    {
        self.firsts.len()
    }

    /// Whether there is no frame.
    pub fn is_empty(&self) -> bool
        ensures { IsTrue result ↔ (self.now ≡ []) }
    {
        self.firsts.is_empty()
    }

    /// The rows of the trunks, by frame number: the release of each frame, and how it ended at its first listener. The
    /// hop records are those of `hops_of`.
    pub fn journeys(&self) -> &[Journey]
        ensures { result.now ≡ map journey_of self.now }
    {
        &self.journeys[..self.firsts.len()]
    }

    /// The number of legs of a frame of the run: the trunk, and one for each further listener.
    pub fn legs(&self, frame: u32) -> u32
        requires { frame < length self.now }
        ensures { result ≡ length (legs_in (travel_at self.now frame)) }
    {
        let frame = frame as usize;
        let first = self.firsts[frame] as usize;
        (1 + (end_of(&self.firsts, self.journeys.len(), frame) - first)) as u32
    }

    /// The hop records of a frame of the run along one leg, counted from 0, in the order of the leg's ports.
    pub fn hops_of(&self, frame: u32, leg: u32) -> &[HopRecord]
        requires frame { frame < length self.now }
        requires leg { leg < length (legs_in (travel_at self.now frame)) }
        ensures { result.now ≡ (leg_in (travel_at self.now frame) leg).hops }
    {
        let span = self.spans[row_of(&self.firsts, frame, leg)];
        let first = span.first as usize;
        &self.hops[first..first + span.count as usize]
    }

    /// How a frame of the run ended along one leg, counted from 0.
    pub fn ending_of(&self, frame: u32, leg: u32) -> Ending
        requires frame { frame < length self.now }
        requires leg { leg < length (legs_in (travel_at self.now frame)) }
        ensures { result ≡ (leg_in (travel_at self.now frame) leg).ending }
    {
        self.journeys[row_of(&self.firsts, frame, leg)].ending
    }
}

// The place behind the rows of a frame's copies.
fn end_of(firsts: &[u32], rows: usize, frame: usize) -> usize
    requires { frame < length firsts.now }
    ensures { result ≡ end_of firsts.now rows frame }
{
    if frame + 1 == firsts.len() {
        return rows;
    }
    firsts[frame + 1] as usize
}

/// The place of the row of a frame's leg, where these are the places of the first copies.
pub fn row_of(firsts: &[u32], frame: u32, leg: u32) -> usize
    requires { frame < length firsts.now }
    ensures { result ≡ row_of firsts.now frame leg }
{
    if leg == 0 {
        return frame as usize;
    }
    firsts[frame as usize] as usize + (leg - 1) as usize
}
