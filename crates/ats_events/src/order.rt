//! The order of moments.

ghost use Rattle.std.specs.Prelude.{◌≡◌, ◌↔◌, ◌<◌, ◌^◌, IsTrue};
ghost use Rattle.ats_events.specs.declared.moment.Moment.{Moment};
ghost use Rattle.ats_events.specs.Order.{IsInRange, IsIrreflexive, IsTransitive, IsTotal, IsTimed, IsBeforeByRank};
ghost use Rattle.ats_events.specs.Order.{IsBeforeUp, IsBeforeDown, IsBeforeScrambled};
ghost use Rattle.ats_events.specs.Ranked.{up_irreflexive, up_transitive, up_total, up_timed};
ghost use Rattle.ats_events.specs.Ranked.{down_irreflexive, down_transitive, down_total, down_timed};
ghost use Rattle.ats_events.specs.Ranked.{scrambled_irreflexive, scrambled_transitive, scrambled_total};
ghost use Rattle.ats_events.specs.Ranked.{scrambled_timed};
ghost use Rattle.ats_events.specs.Weak.{before_weakly};
ghost use Rattle.ats_events.specs.Inside.{number_of};

use crate::moment::Moment;
use ats_heap::Precedence;
use ats_num::Ps;

/// What a picosecond counts in the number of a moment, and what a phase does.
const TIME: u128 = 1 << 64;

const PHASE: u128 = 1 << 32;

/// A lawful order of moments. Time decides, and at equal times the phase; what happens at one time
/// in one phase stands in an order that each implementation chooses. No moment is before itself,
/// what is before a moment is before all that this moment is before, and of two different moments
/// one is before the other.
pub trait TimeOrder: Copy {
    /// The first moment is before the second.
    ghost before: { Self → Moment → Moment → Type 0 };

    /// Whether `a` is before `b`.
    fn before(&self, a: &Moment, b: &Moment) -> bool
        ensures { IsTrue result ↔ before self.now a.now b.now };

    /// No moment is before itself.
    ghost irreflexive: { (order : Self) → IsIrreflexive (before order) };

    /// What is before a moment is before all that this moment is before.
    ghost transitive: { (order : Self) → IsTransitive (before order) };

    /// Of two different moments one is before the other.
    ghost total: { (order : Self) → IsTotal (before order) };

    /// A smaller time is before, and at equal times a smaller phase.
    ghost timed: { (order : Self) → IsTimed (before order) };
}

/// At one time and phase the lesser number comes first.
#[derive(Clone, Copy, Debug, PartialEq, Eq)]
pub struct Up;

/// At one time and phase the greater number comes first.
#[derive(Clone, Copy, Debug, PartialEq, Eq)]
pub struct Down;

/// At one time and phase that number comes first which, combined with this one bit by bit by exclusive or, is less.
#[derive(Clone, Copy, Debug, PartialEq, Eq)]
pub struct Scrambled(pub u32);

impl TimeOrder for Up {
    ghost before = { λ _. IsBeforeUp };

    ghost irreflexive = { λ _. up_irreflexive };

    ghost transitive = { λ _. up_transitive };

    ghost total = { λ _. up_total };

    ghost timed = { λ _. up_timed };

    fn before(&self, a: &Moment, b: &Moment) -> bool {
        is_before_by_rank(a, b, a.id, b.id)
    }
}

impl TimeOrder for Down {
    ghost before = { λ _. IsBeforeDown };

    ghost irreflexive = { λ _. down_irreflexive };

    ghost transitive = { λ _. down_transitive };

    ghost total = { λ _. down_total };

    ghost timed = { λ _. down_timed };

    fn before(&self, a: &Moment, b: &Moment) -> bool {
        is_before_by_rank(a, b, b.id, a.id)
    }
}

impl TimeOrder for Scrambled {
    ghost before = { λ order. IsBeforeScrambled order.0 };

    ghost irreflexive = { λ order. scrambled_irreflexive order.0 };

    ghost transitive = { λ order. scrambled_transitive order.0 };

    ghost total = { λ order. scrambled_total order.0 };

    ghost timed = { λ order. scrambled_timed order.0 };

    fn before(&self, a: &Moment, b: &Moment) -> bool {
        is_before_by_rank(a, b, a.id ^ self.0, b.id ^ self.0)
    }
}

/// Whether `a` is before `b` by time, then by phase, and where both are equal by their ranks `x` and `y`.
#[tactic(auto, using(crate::proofs::Numbers::less_is_before, crate::proofs::Numbers::before_is_less))]
fn is_before_by_rank(a: &Moment, b: &Moment, x: u32, y: u32) -> bool
    ensures { IsTrue result ↔ IsBeforeByRank a.now b.now x y }
{
    as_number(a.at, a.phase, x) < as_number(b.at, b.phase, y)
}

/// Time, phase and rank of a moment as the digits of one number, so that moments are compared at once: which of two is
/// before is seldom foreseen, and a test of each would be guessed.
fn as_number(at: Ps, phase: u32, rank: u32) -> u128
    ensures value { result ≡ number_of at.0 phase rank }
    ensures phase { phase < 2 ^ 32 }
    ensures rank { rank < 2 ^ 32 }
{
    u128::from(at.0) * TIME + u128::from(phase) * PHASE + u128::from(rank)
}

/// The order of an agenda's entries, which is that of their moments.
#[derive(Clone, Copy)]
pub(crate) struct ByMoment<O: TimeOrder> {
    pub(crate) order: O,
}

impl<O: TimeOrder, E: Copy> Precedence<(Moment, E)> for ByMoment<O> {
    ghost covers = { λ _ x. IsInRange x.0 };

    ghost goes_before = { λ by x y. O.before by.order x.0 y.0 };

    ghost weak_order = { λ by. before_weakly (O.before by.order) (O.irreflexive by.order) (O.transitive by.order)
        (O.total by.order) };

    fn goes_before(&self, x: &(Moment, E), y: &(Moment, E)) -> bool {
        self.order.before(&x.0, &y.0)
    }
}
