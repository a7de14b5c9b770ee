//! How the frames of a run ended.

ghost use Rattle.std.specs.Prelude.{◌≡◌, ◌<◌, ◌≤◌, length};
ghost use Rattle.ats_trace.specs.Journey.{legs_in};
ghost use Rattle.ats_trace.specs.Stored.{end_of, leg_in, travel_at};
ghost use Rattle.ats_trace.specs.declared.run.TheConstants.{MAX_FRAMES};
ghost use Rattle.ats_run_records.specs.LastVerdict.{last_verdict};

use crate::track::Track;
use ats_group::Verdict;
use ats_trace::{Ending, Release, row_of};
use std::marker::Model;

/// What is kept of a run when its hop records are not: the release of each frame, and for each of its legs how it ended
/// and the last verdict. Contracts see the whole run, frame by frame.
#[derive(Drop)]
pub struct Ends {
    pub(crate) releases: Vec<Release>,
    pub(crate) firsts: Vec<u32>, // for each frame the place of its first copy, or where it would be
    pub(crate) copies: Vec<u32>, // for each row of a copy the number of its frame
    pub(crate) tracks: Vec<Track>,
}

impl Model for Ends {
    ghost use Rattle.std.specs.Prelude.{List};
    ghost use Rattle.ats_trace.specs.Journey.{Travel};

    ghost Value = { List Travel };

    ghost use Rattle.ats_run_records.specs.Brief.{AreKept, ledger_of};
    ghost use Rattle.ats_run_records.specs.Progress.{finished};

    ghost view = { λ e. finished (ledger_of e.releases.items e.firsts.items e.copies.items e.tracks.items) };

    ghost invariant = { λ e. AreKept e.releases.items e.firsts.items e.copies.items e.tracks.items };
}

impl Ends {
    /// The number of frames.
    pub fn len(&self) -> usize
        ensures value { result ≡ length self.now }
        ensures bounded { length self.now ≤ MAX_FRAMES }
    {
        self.firsts.len()
    }

    /// The release of a frame.
    pub fn release_of(&self, frame: u32) -> Release
        requires { frame < length self.now }
        ensures { result ≡ (travel_at self.now frame).release }
    {
        self.releases[frame as usize]
    }

    /// The number of legs of a frame: the trunk, and one for each further listener.
    pub fn legs(&self, frame: u32) -> u32
        requires { frame < length self.now }
        ensures { result ≡ length (legs_in (travel_at self.now frame)) }
    {
        let frame = frame as usize;
        let first = self.firsts[frame] as usize;
        (1 + (end_of(&self.firsts, self.tracks.len(), frame) - first)) as u32
    }

    /// How a frame ended along one leg, counted from 0.
    pub fn ending_of(&self, frame: u32, leg: u32) -> Ending
        requires frame { frame < length self.now }
        requires leg { leg < length (legs_in (travel_at self.now frame)) }
        ensures { result ≡ (leg_in (travel_at self.now frame) leg).ending }
    {
        self.tracks[row_of(&self.firsts, frame, leg)].ending()
    }

    /// The last verdict on a frame along one leg, counted from 0; `None` where it came to no port of the leg.
    pub fn last_of(&self, frame: u32, leg: u32) -> Option<Verdict>
        requires frame { frame < length self.now }
        requires leg { leg < length (legs_in (travel_at self.now frame)) }
        ensures { result ≡ last_verdict (leg_in (travel_at self.now frame) leg).hops }
    {
        let track = &self.tracks[row_of(&self.firsts, frame, leg)];
        if track.hops() == 0 {
            return None;
        }
        Some(track.verdict())
    }
}

// The place behind the rows of a frame's copies.
fn end_of(firsts: &[u32], rows: usize, frame: usize) -> usize
    requires { frame < length firsts.now }
    ensures { result ≡ end_of firsts.now rows frame }
{
    if frame + 1 == firsts.len() {
        return rows;
    }
    firsts[frame + 1] as usize
}
