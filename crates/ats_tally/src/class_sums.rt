//! The sums of a port and a class.

ghost use Rattle.std.specs.Prelude.{◌≡◌};
ghost use Rattle.ats_tally.specs.ClassSums.{class_sums};

use crate::tally::Tally;

/// What the senders at a port make of a class, as a row of a certificate says it.
#[derive(Clone, Copy)]
pub struct ClassSums {
    /// The picoseconds of each second that the rates of the higher classes take.
    pub higher: u128,
    /// The same of the class itself.
    pub equal: u128,
    /// The bursts of both, in bits.
    pub bursts: u128,
    /// The wire bits of the longest frame of a lower class or a flow.
    pub lower: u64,
    /// The wire bits of the shortest frame of the class.
    pub least: u64,
}

impl ClassSums {
    /// The sums of a tally at a port where a bit takes so many picoseconds.
    pub fn of(tally: Tally, ps_per_bit: u32) -> Self
        ensures { result ≡ class_sums ps_per_bit tally }
    {
        let ps = u128::from(ps_per_bit);
        ClassSums {
            higher: ps * u128::from(tally.above),
            equal: ps * u128::from(tally.equal),
            bursts: u128::from(tally.bursts),
            lower: tally.lower,
            least: tally.least.unwrap_or(0),
        }
    }
}
