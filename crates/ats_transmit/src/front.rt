//! What waits at a port ahead of its queues.

ghost use Rattle.std.specs.Prelude.{◌≡◌, ◌<◌, ◌≤◌, length, All, IfSome, IfNone};
ghost use Rattle.ats_queue.specs.declared.queued.Queued.{Queued};
ghost use Rattle.ats_transmit.specs.PortQueues.{queued_of, NextTimeIn};
ghost use Rattle.ats_transmit.specs.Waiting.{seen, IsFront, HasRoom, IsNew, Holds, Finds};

use crate::choice::{highest_class, next_time, take_from};
use crate::offer::Offer;
use ats_num::{Ps, Tie};
use ats_queue::ClassQueue;

/// What is known without a look into the queues.
#[derive(Clone, Copy, Debug)]
pub(crate) enum Front {
    /// No frame waits.
    Nothing,
    /// This frame waits, and no other. It stands in no queue.
    Alone(Offer),
    /// All frames that wait stand in the queues.
    Queued,
}

/// Puts a frame into the queue of its class.
fn put<T: Tie>(queues: &mut Vec<ClassQueue<T>>, offer: Offer)
    requires class { offer.class < length queues.old.items }
    requires room { HasRoom queues.old.items offer.class }
    requires new { IsNew queues.old.items offer }
    ensures { Holds queues.old.items queues.new.items offer }
{
    queues[offer.class as usize].insert(offer.queued());
}

/// A frame more waits, and this is the front then.
pub(crate) fn hold<T: Tie>(front: Front, queues: &mut Vec<ClassQueue<T>>, offer: Offer) -> Front
    requires front { IsFront front queues.old.items }
    requires class { offer.class < length queues.old.items }
    requires room { HasRoom (seen front queues.old.items) offer.class }
    requires new { IsNew (seen front queues.old.items) offer }
    ensures front { IsFront result queues.new.items }
    ensures holds { Holds (seen front queues.old.items) (seen result queues.new.items) offer }
{
    match front {
        Front::Nothing => Front::Alone(offer),
        Front::Alone(first) => {
            put(queues, first);
            put(queues, offer);
            Front::Queued
        },
        Front::Queued => {
            put(queues, offer);
            Front::Queued
        },
    }
}

/// The front of these queues, where no frame waits elsewhere.
fn front_of<T: Tie>(queues: &[ClassQueue<T>]) -> Front
    ensures front { IsFront result queues.now }
    ensures seen { seen result queues.now ≡ queues.now }
{
    match next_time(queues) {
        Some(_) => Front::Queued,
        None => Front::Nothing,
    }
}

/// Takes the first frame of the highest class in which one is eligible out of its queue. `None` exactly where there is
/// none, and then nothing changes.
fn take_queued<T: Tie>(queues: &mut Vec<ClassQueue<T>>, now: Ps) -> Option<Offer>
    requires { length queues.old.items ≤ 8 }
    ensures found { IfSome result (Finds T.key now.0 queues.old.items queues.new.items) }
    ensures none { IfNone result (All (λ q. now.0 < q.eligible.0) (queued_of queues.old.items)) }
    ensures unchanged { IfNone result (queues.new.items ≡ queues.old.items) }
{
    let class = highest_class(queues, now)?;
    Some(take_from(queues, class, now))
}

/// The frame that goes first now waits no longer. `None` exactly where no frame is eligible, and then nothing changes.
pub(crate) fn take<T: Tie>(
    front: &mut Front,
    queues: &mut Vec<ClassQueue<T>>,
    now: Ps,
) -> Option<Offer>
    requires front { IsFront front.old queues.old.items }
    requires classes { length queues.old.items ≤ 8 }
    ensures front { IsFront front.new queues.new.items }
    ensures found { IfSome result
        (Finds T.key now.0 (seen front.old queues.old.items) (seen front.new queues.new.items)) }
    ensures none { IfNone result (All (λ q. now.0 < q.eligible.0) (queued_of (seen front.old queues.old.items))) }
    ensures unchanged { IfNone result (seen front.new queues.new.items ≡ seen front.old queues.old.items) }
{
    match *front {
        Front::Nothing => None,
        Front::Alone(offer) => {
            if now.0 < offer.eligible.0 {
                return None;
            }
            *front = Front::Nothing;
            Some(offer)
        },
        Front::Queued => {
            let taken = take_queued(queues, now);
            *front = front_of(queues);
            taken
        },
    }
}

/// The least eligibility time of all that wait.
pub(crate) fn first_time<T: Tie>(front: Front, queues: &[ClassQueue<T>]) -> Option<Ps>
    requires { IsFront front queues.now }
    ensures { NextTimeIn (queued_of (seen front queues.now)) result }
{
    match front {
        Front::Nothing => None,
        Front::Alone(offer) => Some(offer.eligible),
        Front::Queued => next_time(queues),
    }
}
