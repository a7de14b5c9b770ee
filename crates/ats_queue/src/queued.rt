//! The frames of a class queue, and their order.

ghost use Rattle.std.specs.Prelude.{◌≡◌, ◌<◌, ◌^◌, ⊤};
ghost use Rattle.ats_queue.specs.Inside.{number_of};
ghost use Rattle.ats_queue.specs.Order.{GoesBefore};
ghost use Rattle.ats_queue.specs.Weak.{goes_before_weakly};

use ats_heap::Precedence;
use ats_num::{Ps, Tie};

/// What a picosecond counts in the number of a frame.
const TIME: u128 = 1 << 64;

/// A frame that waits in a class queue: its number, the number of its sender, the time from which it is eligible, in
/// picoseconds, and its octets, counted with the frame check sequence.
#[derive(Clone, Copy, Debug, PartialEq, Eq)]
pub struct Queued {
    pub frame: u32,
    pub sender: u32,
    pub eligible: Ps,
    pub octets: u32,
}

/// The order of a class queue: a frame goes before another where it was eligible earlier, or at the same time with the
/// lesser key.
#[derive(Clone, Copy)]
pub(crate) struct ByEligibility<T: Tie> {
    pub(crate) tie: T,
}

impl<T: Tie> Precedence<Queued> for ByEligibility<T> {
    ghost covers = { λ _ _. ⊤ };

    ghost goes_before = { λ order. GoesBefore (T.key order.tie) };

    ghost weak_order = { λ order. goes_before_weakly (T.key order.tie) };

    #[tactic(auto, using(crate::proofs::Numbers::less_goes_before, crate::proofs::Numbers::goes_before_less))]
    fn goes_before(&self, x: &Queued, y: &Queued) -> bool {
        let own = as_number(x.eligible, self.tie.key(x.sender, x.frame));
        let other = as_number(y.eligible, self.tie.key(y.sender, y.frame));
        own < other
    }
}

/// Eligibility time and key of a frame as the digits of one number, so that frames are compared at once: which of two
/// goes first is seldom foreseen, and a test of each would be guessed.
fn as_number(eligible: Ps, key: u64) -> u128
    ensures value { result ≡ number_of eligible.0 key }
    ensures key { key < 2 ^ 64 }
{
    u128::from(eligible.0) * TIME + u128::from(key)
}
