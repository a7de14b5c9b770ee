//! The choice among the queues of all classes.

ghost use Rattle.std.specs.Prelude.{◌<◌, ◌≤◌, List, ◌++◌, length, All, Any, IfSome, IfNone};
ghost use Rattle.std.specs.Bool.{OnTrue, OnFalse};
ghost use Rattle.ats_queue.specs.declared.queued.Queued.{Queued};
ghost use Rattle.ats_transmit.specs.PortQueues.{queued_of, NextTimeIn, IsHighest, TakesFrom};

use crate::offer::Offer;
use ats_num::{Ps, Tie};
use ats_queue::ClassQueue;

/// The earlier of two times, where there is any.
fn earlier(a: Option<Ps>, b: Option<Ps>) -> Option<Ps>
    ensures { (xs ys : List Queued) → NextTimeIn xs a → NextTimeIn ys b → NextTimeIn (xs ++ ys) result }
{
    match (a, b) {
        (Some(x), Some(y)) => Some(Ps(x.0.min(y.0))),
        (Some(x), None) => Some(x),
        (None, other) => other,
    }
}

/// The least eligibility time in all queues.
pub(crate) fn next_time<T: Tie>(queues: &[ClassQueue<T>]) -> Option<Ps>
    ensures { NextTimeIn (queued_of queues.now) result }
{
    let mut next = None;
    for queue in queues {
        next = earlier(next, queue.next_time());
    }
    next
}

/// The highest class in which a frame is eligible at `now`.
pub(crate) fn highest_class<T: Tie>(queues: &[ClassQueue<T>], now: Ps) -> Option<usize>
    ensures found { IfSome result (IsHighest now.0 queues.now) }
    ensures none { IfNone result (All (λ q. now.0 < q.eligible.0) (queued_of queues.now)) }
{
    for class in (0..queues.len()).rev() {
        if is_eligible(&queues[class], now) {
            return Some(class);
        }
    }
    None
}

/// Whether a queue holds a frame that is eligible at `now`.
fn is_eligible<T: Tie>(queue: &ClassQueue<T>, now: Ps) -> bool
    ensures some { OnTrue result (Any (λ q. q.eligible.0 ≤ now.0) queue.now.held) }
    ensures none { OnFalse result (All (λ q. now.0 < q.eligible.0) queue.now.held) }
{
    match queue.next_time() {
        Some(time) => time.0 <= now.0,
        None => false,
    }
}

/// Takes the first frame of a class, in which a frame is eligible.
pub(crate) fn take_from<T: Tie>(queues: &mut Vec<ClassQueue<T>>, class: usize, now: Ps) -> Offer
    requires highest { IsHighest now.0 queues.old.items class }
    requires classes { length queues.old.items ≤ 8 }
    ensures { TakesFrom T.key now.0 class queues.old.items queues.new.items result }
{
    let queued = queues[class].take(now).unwrap();
    Offer::of(class as u8, queued)
}
