//! What is known of a run once it has ended.

ghost use Rattle.std.specs.Prelude.{◌≡◌, ◌<◌, ◌≤◌, List, length};
ghost use Rattle.ats_trace.specs.Journey.{Travel, legs_in};
ghost use Rattle.ats_trace.specs.Stored.{leg_in, travel_at};
ghost use Rattle.ats_trace.specs.declared.run.TheConstants.{MAX_FRAMES};
ghost use Rattle.ats_run_records.specs.LastVerdict.{last_verdict};

use ats_group::Verdict;
use ats_run_records::Ends;
use ats_trace::{Ending, HopRecord, Release, Run};

/// What is known of a run once it has ended, without its hops: the release of each frame, and along each of its legs
/// how it ended and what was decided on it last. Contracts see the whole run, with the hop records of each frame,
/// whether these are kept or not.
pub trait Ended {
    /// What happened to each frame, by frame number.
    ghost run: { Self → List Travel };

    /// The number of frames.
    fn len(&self) -> usize
        ensures value { result ≡ length (run self.now) }
        ensures bounded { length (run self.now) ≤ MAX_FRAMES };

    /// The release of a frame of the run.
    fn release_of(&self, frame: u32) -> Release
        requires { frame < length (run self.now) }
        ensures { result ≡ (travel_at (run self.now) frame).release };

    /// The number of legs of a frame of the run: the trunk, and one for each further listener.
    fn legs(&self, frame: u32) -> u32
        requires { frame < length (run self.now) }
        ensures { result ≡ length (legs_in (travel_at (run self.now) frame)) };

    /// How a frame of the run ended along one leg, counted from 0.
    fn ending_of(&self, frame: u32, leg: u32) -> Ending
        requires frame { frame < length (run self.now) }
        requires leg { leg < length (legs_in (travel_at (run self.now) frame)) }
        ensures { result ≡ (leg_in (travel_at (run self.now) frame) leg).ending };

    /// What was decided on a frame of the run at the last port to which it came along one leg, counted from 0; `None`
    /// where it came to no port of the leg.
    fn last_of(&self, frame: u32, leg: u32) -> Option<Verdict>
        requires frame { frame < length (run self.now) }
        requires leg { leg < length (legs_in (travel_at (run self.now) frame)) }
        ensures { result ≡ last_verdict (leg_in (travel_at (run self.now) frame) leg).hops };
}

impl Ended for Run {
    ghost run = { λ run. run };

    fn len(&self) -> usize {
        Run::len(self)
    }

    #[tactic(auto, using(crate::proofs::Journeys::rows_long, crate::proofs::Journeys::row_at))]
    fn release_of(&self, frame: u32) -> Release {
        self.journeys()[frame as usize].release
    }

    fn legs(&self, frame: u32) -> u32 {
        Run::legs(self, frame)
    }

    fn ending_of(&self, frame: u32, leg: u32) -> Ending {
        Run::ending_of(self, frame, leg)
    }

    fn last_of(&self, frame: u32, leg: u32) -> Option<Verdict> {
        self.hops_of(frame, leg).last().map(HopRecord::verdict)
    }
}

impl Ended for Ends {
    ghost run = { λ ends. ends };

    fn len(&self) -> usize {
        Ends::len(self)
    }

    fn release_of(&self, frame: u32) -> Release {
        Ends::release_of(self, frame)
    }

    fn legs(&self, frame: u32) -> u32 {
        Ends::legs(self, frame)
    }

    fn ending_of(&self, frame: u32, leg: u32) -> Ending {
        Ends::ending_of(self, frame, leg)
    }

    fn last_of(&self, frame: u32, leg: u32) -> Option<Verdict> {
        Ends::last_of(self, frame, leg)
    }
}
