//! The frames that wait at a port.

ghost use Rattle.std.specs.Prelude.{◌≡◌, ◌<◌, ◌≤◌, length, All, IfSome, IfNone, IfOk};
ghost use Rattle.ats_transmit.specs.PortQueues.{queued_of, NextTimeIn, AreEmpty};
ghost use Rattle.ats_transmit.specs.Waiting.{HasRoom, IsNew, Holds, Finds};

use crate::front::{Front, first_time, hold, take};
use crate::offer::Offer;
use ats_num::{Ps, Tie};
use ats_queue::ClassQueue;
use std::alloc::{AllocError, Global};
use std::marker::Model;

/// The frames that wait at a port. Contracts see a queue for each class. A frame that waits alone stands in front of
/// the queues, so that neither it nor its port's selection touches them.
#[derive(Drop)]
pub(crate) struct Waiting<T: Tie> {
    front: Front,
    queues: Vec<ClassQueue<T>>,
}

impl<T: Tie> Model for Waiting<T> {
    ghost use Rattle.std.specs.Prelude.{List};
    ghost use Rattle.ats_queue.specs.Contents.{Contents};
    ghost use Rattle.ats_transmit.specs.Waiting.{seen, IsFront};

    ghost Value = { List (Contents T) };

    ghost view = { λ w. seen w.front w.queues.items };

    ghost invariant = { λ w. IsFront w.front w.queues.items };
}

impl<T: Tie> Waiting<T> {
    /// An empty queue for each room. `AllocError` where memory runs out.
    pub(crate) fn open(alloc: Global, rooms: &[u32], tie: T) -> Result<Waiting<T>, AllocError>
        ensures { IfOk result (λ waiting. AreEmpty waiting rooms.now tie) }
    {
        Ok(Waiting {
            front: Front::Nothing,
            queues: queues_of(alloc, rooms, tie)?,
        })
    }

    /// Holds one more frame, which was not held, in the queue of its class, which has room. It takes no memory.
    pub(crate) fn insert(&mut self, offer: Offer)
        requires class { offer.class < length self.old }
        requires room { HasRoom self.old offer.class }
        requires new { IsNew self.old offer }
        ensures { Holds self.old self.new offer }
    {
        self.front = hold(self.front, &mut self.queues, offer);
    }

    /// The first frame of the highest class in which one is eligible at `now`, which waits no longer. `None` exactly
    /// where no frame is eligible, and then nothing changes. It takes no memory.
    pub(crate) fn take(&mut self, now: Ps) -> Option<Offer>
        requires { length self.old ≤ 8 }
        ensures found { IfSome result (Finds T.key now.0 self.old self.new) }
        ensures none { IfNone result (All (λ q. now.0 < q.eligible.0) (queued_of self.old)) }
        ensures unchanged { IfNone result (self.new ≡ self.old) }
    {
        take(&mut self.front, &mut self.queues, now)
    }

    /// The least eligibility time of all that wait. `None` exactly where none does.
    pub(crate) fn next_time(&self) -> Option<Ps>
        ensures { NextTimeIn (queued_of self.now) result }
    {
        first_time(self.front, &self.queues)
    }
}

/// An empty queue for each class.
fn queues_of<T: Tie>(alloc: Global, rooms: &[u32], tie: T) -> Result<Vec<ClassQueue<T>>, AllocError>
    ensures { IfOk result (λ queues. AreEmpty queues.items rooms.now tie) }
{
    let mut queues = Vec::with_capacity(alloc, rooms.len())?;
    for room in rooms {
        queues.push(ClassQueue::open(alloc, *room, tie)?)?;
    }
    Ok(queues)
}
