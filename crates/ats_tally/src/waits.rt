//! The least waits that are enough.

ghost use Rattle.std.specs.Prelude.{◌≡◌, ◌-◌, ◌+◌, ◌*◌, ◌<◌, ◌≤◌};
ghost use Rattle.ats_num.specs.declared.time.TheConstants.{PS_PER_SECOND};
ghost use Rattle.ats_tally.specs.Tally.{IsWithin};
ghost use Rattle.ats_tally.specs.Waits.{wait_for};

use crate::tally::{MAX_SENDERS, Tally};
use ats_num::ceil_div;
use ats_num::time::PS_PER_SECOND;

/// The least wait that is enough, in picoseconds, where a bit takes `ps` picoseconds, the higher classes take `higher`
/// picoseconds of each second, and the senders make so much of a class.
pub fn least_wait(ps: u128, higher: u128, tally: Tally) -> u128
    requires ps { ps ≤ 100000 }
    requires higher { higher < PS_PER_SECOND }
    requires tally { IsWithin MAX_SENDERS tally }
    ensures wait { result ≡ wait_for ps higher tally }
    ensures most { result ≤ 1000000000000000000000000000000 }
{
    let second = u128::from(PS_PER_SECOND);
    let bits = (tally.lower + tally.bursts).saturating_sub(tally.least.unwrap_or(0));
    let sent = ps * u128::from(bits);
    if higher == 0 {
        return sent; // for the highest class nothing is divided
    }
    ceil_div(second * sent, second - higher)
}
