//! A leg of a frame, along which no hop record is kept.

ghost use Rattle.std.specs.Prelude.{◌≡◌, ◌<◌, [], length};
ghost use Rattle.ats_trace.specs.declared.journey.Ending.TheVariants.{Discard};
ghost use Rattle.ats_run_records.specs.Track.{hops_next, last_in};
ghost use Rattle.ats_run_records.specs.declared.told.Told.TheVariants.{Came, Sent};

use crate::told::Told;
use ats_group::Verdict;
use ats_history::History;
use ats_num::Ps;
use ats_trace::{Ending, HopRecord};
use std::marker::Model;

/// What kind of verdict came last.
#[derive(Clone, Copy, Debug, PartialEq, Eq)]
pub(crate) enum Decision {
    /// The frame is eligible.
    Eligible,
    /// It would be eligible too late.
    Late,
    /// Its octets are not allowed.
    Size,
}

/// One leg of a frame: its number, how many hop records there may be along it, those that there are, and how it ended.
/// Of the records it keeps how many they are and the last verdict.
#[derive(Drop)]
pub(crate) struct Track {
    ending: Ending,
    decided: Ps, // the time of the last verdict, 0 where it has none
    decision: Decision,
    leg: u16,
    count: u8,
    room: u8,
    told: History<Told>,
}

const _: () = prove!(size_of::<Track>() == 32);

impl Model for Track {
    ghost use Rattle.ats_run_records.specs.Track.{Along};

    ghost Value = { Along };

    ghost use Rattle.ats_run_records.specs.TrackFields.{along_of, IsWhatIsTold};

    ghost view = { λ t. along_of t.leg t.room t.ending t.told.items };

    ghost invariant = { λ t. IsWhatIsTold t.count t.decision t.decided t.told.items };
}

impl Track {
    /// A leg along which nothing has happened.
    pub(crate) fn new(leg: u16, room: u8) -> Track
        ensures { result ≡ record { leg = leg; room = room; hops = []; ending = Discard } }
    {
        Track {
            ending: Ending::Discard,
            decided: Ps(0),
            decision: Decision::Size,
            leg,
            count: 0,
            room,
            told: History::new(),
        }
    }

    /// The number of the leg among those of its sender.
    pub(crate) fn leg(&self) -> u32
        ensures { result ≡ self.now.leg }
    {
        u32::from(self.leg)
    }

    /// How many hop records there are.
    pub(crate) fn hops(&self) -> u32
        ensures { result ≡ length self.now.hops }
    {
        u32::from(self.count)
    }

    /// The verdict of the last hop record; `Size` where there is none.
    pub(crate) fn verdict(&self) -> Verdict
        ensures { result ≡ (last_in self.now.hops).verdict }
    {
        match self.decision {
            Decision::Eligible => Verdict::Eligible(self.decided),
            Decision::Late => Verdict::Late(self.decided),
            Decision::Size => Verdict::Size,
        }
    }

    /// How the leg ended.
    pub(crate) fn ending(&self) -> Ending
        ensures { result ≡ self.now.ending }
    {
        self.ending
    }

    /// There is one hop record more.
    pub(crate) fn push(&mut self, hop: HopRecord)
        requires { length self.old.hops < self.old.room }
        ensures { self.new ≡ record self.old { hops = hops_next self.old.hops (Came hop) } }
    {
        let (decision, decided) = match hop.verdict() {
            Verdict::Eligible(at) => (Decision::Eligible, at),
            Verdict::Late(at) => (Decision::Late, at),
            Verdict::Size => (Decision::Size, Ps(0)),
        };
        self.decision = decision;
        self.decided = decided;
        self.count += 1;
        self.told = self.told.and(&Told::Came(hop));
    }

    /// The last hop record tells when its transmission starts and ends.
    pub(crate) fn send(&mut self, start: Ps, end: Ps)
        ensures { self.new ≡ record self.old { hops = hops_next self.old.hops (Sent start end) } }
    {
        self.told = self.told.and(&Told::Sent(start, end));
    }

    /// The leg has ended so.
    pub(crate) fn close(&mut self, ending: Ending)
        ensures { self.new ≡ record self.old { ending = ending } }
    {
        self.ending = ending;
    }
}
