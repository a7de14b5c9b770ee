//! What happens to a frame at one port.

ghost use Rattle.std.specs.Prelude.{◌≡◌, ◌<◌, Some, None};
ghost use Rattle.ats_num.specs.declared.time.TheConstants.{END};

use ats_group::Verdict;
use ats_num::Ps;
use ats_num::time::END;
use std::marker::Model;

// What stands in place of a start as long as a frame is not sent: no time of a run, as those are below `END`. So a run
// of millions of hops needs a third less memory than with a tag for the verdict and one for the transmission.

// The frame is eligible.
const UNSENT: u64 = u64::MAX;

// It would be eligible too late.
const LATE: u64 = u64::MAX - 1;

// Its octets are outside its stream's declared sizes.
const OVERSIZE: u64 = u64::MAX - 2;

/// What happened to a frame at one port of its sender. It takes 32 bytes, and contracts see it as the record of what
/// it tells: when the frame came to the node that the port leaves, at the first hop of the trunk its release; what the
/// node decided on it; and when its transmission started and ended.
#[derive(Clone, Copy, Debug, PartialEq, Eq)]
pub struct HopRecord {
    arrival: Ps,
    decided: Ps, // the time of the verdict, 0 where it has none
    start: u64, // in picoseconds, or one of the values above
    end: Ps, // 0 as long as the frame is not sent
}

const _: () = prove!(size_of::<HopRecord>() == 32);

impl Model for HopRecord {
    ghost use Rattle.ats_trace.specs.HopRecord.{HopRecord};

    ghost Value = { HopRecord };

    ghost use Rattle.ats_trace.specs.HopFields.{IsWhatIsTold, fields_of, told_by};

    ghost view = { told_by };

    ghost invariant = { IsWhatIsTold };

    ghost inverse = { fields_of };

    ghost inverse_ok = { λ fields is. is };
}

impl HopRecord {
    ghost use Rattle.ats_trace.specs.HopRecord.{IsEligible};

    /// The record of a frame that came at this time, on which this was decided, and which is not sent.
    pub fn new(arrival: Ps, verdict: Verdict) -> HopRecord
        ensures { result ≡ record { arrival = arrival; verdict = verdict; sent = None } }
    {
        let (decided, start) = match verdict {
            Verdict::Eligible(at) => (at, UNSENT),
            Verdict::Late(at) => (at, LATE),
            Verdict::Size => (Ps(0), OVERSIZE),
        };
        HopRecord {
            arrival,
            decided,
            start,
            end: Ps(0),
        }
    }

    /// When the frame came to the node that the port leaves; at the first hop of the trunk its release.
    pub fn arrival(&self) -> Ps
        ensures { result ≡ self.now.arrival }
    {
        self.arrival
    }

    /// What the node decided on it.
    pub fn verdict(&self) -> Verdict
        ensures { result ≡ self.now.verdict }
    {
        match self.start {
            LATE => Verdict::Late(self.decided),
            OVERSIZE => Verdict::Size,
            _ => Verdict::Eligible(self.decided),
        }
    }

    /// When its transmission started and ended; in a finished run `None` exactly where the verdict is not `Eligible`.
    pub fn sent(&self) -> Option<(Ps, Ps)>
        ensures { result ≡ self.now.sent }
    {
        if self.start < END {
            Some((Ps(self.start), self.end))
        } else {
            None
        }
    }

    /// Tells when the transmission of the frame starts and ends. Conditions: the frame is eligible, and the start is
    /// below `END`.
    pub fn send(&mut self, start: Ps, end: Ps)
        requires eligible { IsEligible self.old.verdict }
        requires in_time { start.0 < END }
        ensures { self.new ≡ record self.old { sent = Some (start, end) } }
    {
        self.start = start.0;
        self.end = end;
    }
}
