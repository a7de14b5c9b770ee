//! One class queue.

ghost use Rattle.std.specs.Prelude.{◌≡◌, ◌≢◌, ◌↔◌, ◌+◌, ◌<◌, ◌≤◌, [], ◌∷◌, length, All, IsNone, IfNone, IfSome, IfOk};
ghost use Rattle.std.specs.Prelude.{IsPermutation};
ghost use Rattle.ats_queue.specs.Order.{GoesBefore, Takes, IsNextTime};

use crate::queued::{ByEligibility, Queued};
use ats_heap::Heap;
use ats_num::{Ps, Tie};
use std::alloc::{AllocError, Global};
use std::marker::Model;

/// How many frames wait in their order, behind the first. Few ever wait at once.
const SHORT: u32 = 15;

/// The frames that wait at a port in one class. Contracts see them with sender and eligibility time as a list, whose
/// order means nothing, and the capacity and the tie that the queue was opened with.
#[derive(Drop)]
pub struct ClassQueue<T: Tie> {
    held: Heap<Queued, ByEligibility<T>>,
}

impl<T: Tie> Model for ClassQueue<T> {
    ghost use Rattle.ats_queue.specs.Contents.{Contents};

    ghost Value = { Contents T };

    ghost use Rattle.ats_queue.specs.Inside.{IsKept};

    ghost view = { λ q. record { held = q.held.items; capacity = q.held.capacity; tie = q.held.order.tie } };

    ghost invariant = { λ q. IsKept q.held.items };
}

impl<T: Tie> ClassQueue<T> {
    /// An empty queue with room for so many frames, which breaks ties by `tie`. `AllocError` where memory runs out.
    pub fn open(alloc: Global, capacity: u32, tie: T) -> Result<ClassQueue<T>, AllocError>
        ensures { IfOk result (λ queue. queue ≡ record { held = []; capacity = capacity; tie = tie }) }
    {
        Ok(ClassQueue {
            held: Heap::open_short(alloc, capacity, waiting_of(capacity), ByEligibility { tie })?,
        })
    }

    /// Holds one more frame, which was not held, in a queue that has room. It takes no memory.
    pub fn insert(&mut self, queued: Queued)
        requires room { length self.old.held < self.old.capacity }
        requires new { All (λ x. x.frame ≢ queued.frame) self.old.held }
        ensures held { IsPermutation (queued ∷ self.old.held) self.new.held }
        ensures count { length self.new.held ≡ length self.old.held + 1 }
        ensures rest { self.new ≡ record self.old { held = self.new.held } }
    {
        self.held.insert(queued);
    }

    /// The held frame of the least eligibility time, and of the least key among equal ones, which is held no longer.
    /// `None` exactly where no held frame is eligible at `now`, and then nothing changes. It takes no memory.
    pub fn take(&mut self, now: Ps) -> Option<Queued>
        ensures taken { IfSome result (Takes (T.key self.old.tie) now.0 self.old.held self.new.held) }
        ensures none { IsNone result ↔ All (λ x. now.0 < x.eligible.0) self.old.held }
        ensures unchanged { IfNone result (self.new ≡ self.old) }
        ensures rest { self.new ≡ record self.old { held = self.new.held } }
    {
        let first = self.held.peek()?;
        if now.0 < first.eligible.0 {
            return None;
        }
        self.held.pop()
    }

    /// The least eligibility time of a held frame. `None` exactly where nothing is held.
    pub fn next_time(&self) -> Option<Ps>
        ensures least { IfSome result (λ time. IsNextTime self.now.held time.0) }
        ensures none { IsNone result ↔ (self.now.held ≡ []) }
    {
        Some(self.held.peek()?.eligible)
    }
}

/// How many frames more than the first wait in their order in a queue with this capacity: none in a small one, which
/// takes no array for them.
fn waiting_of(capacity: u32) -> u32 {
    if capacity <= SHORT { 0 } else { SHORT }
}
