//! What a token bucket lacks of being full.

ghost use Rattle.std.specs.Prelude.{◌≡◌, ◌*◌, ◌≤◌, IfSome};
ghost use Rattle.std.specs.Option.{option_map};
ghost use Rattle.ats_num.specs.declared.wire.TheConstants.{MAX_WIRE_BITS};
ghost use Rattle.ats_num.specs.Division.{IsCeiling};
ghost use Rattle.ats_fit.specs.Deficit.{most_bits, deficit_after, first_deficit};

use ats_num::time::PS_PER_SECOND;
use ats_num::{Ps, Rate, ceil_div};

/// What a token bucket that may lack any number of bits lacks of being full, in bits multiplied by the picoseconds of a
/// second, as frames of one stream come.
#[derive(Clone, Copy)]
pub(crate) struct Deficit {
    /// The committed rate.
    pub(crate) rate: Rate,
    /// When the last frame came; 0 before the first.
    pub(crate) at: Ps,
    /// What the bucket lacked once it had come.
    pub(crate) lacks: u128,
    /// The most that it lacked so far.
    pub(crate) most: u128,
}

impl Deficit {
    /// That of a full bucket.
    pub(crate) fn new(rate: Rate) -> Deficit
        ensures { result ≡ first_deficit rate }
    {
        Deficit {
            rate,
            at: Ps(0),
            lacks: 0,
            most: 0,
        }
    }

    /// After one frame more, where there is a bucket.
    pub(crate) fn with(so_far: Option<Deficit>, at: Ps, bits: u64) -> Option<Deficit>
        requires order { IfSome so_far (λ deficit. deficit.at.0 ≤ at.0) }
        requires bits { bits ≤ MAX_WIRE_BITS }
        requires narrow { IfSome so_far (λ deficit. deficit.lacks ≤ PS_PER_SECOND * most_bits) }
        ensures { result ≡ option_map (λ deficit. deficit_after deficit at.0 bits) so_far }
    {
        match so_far {
            Some(deficit) => Some(deficit.after(at, bits)),
            None => None,
        }
    }

    // After one frame more.
    fn after(self, at: Ps, bits: u64) -> Deficit
        requires order { self.at.0 ≤ at.0 }
        requires bits { bits ≤ MAX_WIRE_BITS }
        requires narrow { self.lacks ≤ PS_PER_SECOND * most_bits }
        ensures { result ≡ deficit_after self at.0 bits }
    {
        let gained = u128::from(self.rate.bps()) * u128::from(at.0 - self.at.0);
        let taken = u128::from(PS_PER_SECOND) * u128::from(bits);
        let lacks = self.lacks.saturating_sub(gained) + taken;
        Deficit {
            rate: self.rate,
            at,
            lacks,
            most: self.most.max(lacks),
        }
    }

    /// The least whole burst, in bits, of a bucket that would not have lacked more.
    pub(crate) fn least_burst(self) -> u64
        requires { self.most ≤ PS_PER_SECOND * most_bits }
        ensures { IsCeiling self.most PS_PER_SECOND result }
    {
        ceil_div(self.most, u128::from(PS_PER_SECOND)) as u64
    }
}
