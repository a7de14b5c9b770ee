//! The frame from which on a stream has sent the most beyond its bucket.

ghost use Rattle.std.specs.Prelude.{◌≡◌, ◌-◌, ◌*◌, ◌≤◌, IfSome};
ghost use Rattle.ats_num.specs.declared.rate.TheConstants.{MAX_BPS};
ghost use Rattle.ats_conform.specs.Start.{is_over, is_worse, worse_of};

use ats_num::time::PS_PER_SECOND;
use ats_num::{Ps, Rate};

/// A frame of a stream as one from which on bits are counted.
#[derive(Clone, Copy)]
pub(crate) struct Start {
    /// The frame's number.
    pub(crate) frame: u32,
    /// When it came.
    pub(crate) at: Ps,
    /// The bits of the stream before it.
    pub(crate) before: u64,
}

impl Start {
    /// The worse of the worst start so far and one that comes after it; of two that are alike the first.
    pub(crate) fn worst(rate: Rate, so_far: Option<Start>, next: Start) -> Start
        requires time { IfSome so_far (λ start. start.at.0 ≤ next.at.0) }
        requires bits { IfSome so_far (λ start. start.before ≤ next.before) }
        ensures { result ≡ worse_of rate so_far next }
    {
        match so_far {
            Some(start) if !next.is_worse(rate, start) => start,
            _ => next,
        }
    }

    /// Whether in the time from an earlier start to this one the rate gives more than was sent in it.
    fn is_worse(self, rate: Rate, earlier: Start) -> bool
        requires time { earlier.at.0 ≤ self.at.0 }
        requires bits { earlier.before ≤ self.before }
        ensures { result ≡ is_worse rate self earlier }
    {
        let given = gained(rate, earlier.at, self.at);
        let sent = u128::from(PS_PER_SECOND) * u128::from(self.before - earlier.before);
        given > sent
    }

    /// Whether the bits from this start on, of so many in all, are more than the rate gives until `at` and the burst.
    pub(crate) fn is_over(self, rate: Rate, burst_bits: u64, at: Ps, sent: u64) -> bool
        requires time { self.at.0 ≤ at.0 }
        requires bits { self.before ≤ sent }
        ensures { result ≡ is_over rate burst_bits self at.0 sent }
    {
        let bits = u128::from(PS_PER_SECOND) * u128::from(sent - self.before);
        bits > gained(rate, self.at, at) + u128::from(PS_PER_SECOND) * u128::from(burst_bits)
    }
}

/// What a rate gives from one time to a later one, in bits multiplied by the picoseconds of a second.
fn gained(rate: Rate, from: Ps, to: Ps) -> u128
    requires { from.0 ≤ to.0 }
    ensures value { result ≡ rate * (to.0 - from.0) }
    ensures bounded { result ≤ MAX_BPS * (to.0 - from.0) }
{
    u128::from(rate.bps()) * u128::from(to.0 - from.0)
}
