//! What is still to happen.

ghost use Rattle.std.specs.Prelude.{◌≡◌, ◌≢◌, ◌↔◌, ◌+◌, ◌<◌, [], length, All, IsNone, IfNone, IfSome, IfOk};
ghost use Rattle.std.specs.Option.{ForSome};
ghost use Rattle.ats_events.specs.Contents.{opened};
ghost use Rattle.ats_events.specs.Steps.{Inserts, Pops};

use crate::moment::Moment;
use crate::order::{ByMoment, TimeOrder};
use ats_heap::Heap;
use std::alloc::{AllocError, Global};
use std::marker::Model;

/// The events that are still to happen, each at a moment of its own, all after the moment that was
/// popped last: callers see to that by the conditions of `insert`, and it is not told again.
/// Contracts see the entries as a list of moments and events, whose order means nothing, the
/// capacity and the order that the agenda was opened with, and the moment that was popped last,
/// where there is one.
#[derive(Drop)]
pub struct Agenda<O: TimeOrder, E: Copy> {
    entries: Heap<(Moment, E), ByMoment<O>>,
    last: Option<Moment>,
}

impl<O: TimeOrder, E: Copy> Model for Agenda<O, E> {
    ghost use Rattle.ats_events.specs.Contents.{Contents};

    ghost Value = { Contents O E };

    ghost use Rattle.ats_events.specs.Inside.{IsKept};

    ghost view = { λ a. record {
      entries = a.entries.items;
      capacity = a.entries.capacity;
      order = a.entries.order.order;
      last = a.last;
    } };

    ghost invariant = { λ a. IsKept (O.before a.entries.order.order) a.entries.items a.last };
}

impl<O: TimeOrder, E: Copy> Agenda<O, E> {
    /// An empty agenda with room for so many entries, whose moments stand in this order.
    /// `AllocError` where memory runs out.
    pub fn open(alloc: Global, capacity: u32, order: O) -> Result<Agenda<O, E>, AllocError>
        ensures { IfOk result (λ agenda. agenda ≡ opened capacity order) }
    {
        Ok(Agenda {
            entries: Heap::open(alloc, capacity, ByMoment { order })?,
            last: None,
        })
    }

    /// Puts one event more into an agenda that has room, at a moment that no entry has and that is after the one popped
    /// last. It takes no memory.
    pub fn insert(&mut self, moment: Moment, event: E)
        requires room { length self.old.entries < self.old.capacity }
        requires apart { All (λ entry. entry.0 ≢ moment) self.old.entries }
        requires after { ForSome self.old.last (λ last. O.before self.old.order last moment) }
        ensures inserted { Inserts (O.before self.old.order) self.old self.new (moment, event) }
        ensures count { length self.new.entries ≡ length self.old.entries + 1 }
    {
        self.entries.insert((moment, event));
    }

    /// Takes out the entry whose moment is before all others. This moment is after the one popped
    /// before. `None` exactly where the agenda is empty, and then nothing changes. It takes no
    /// memory.
    pub fn pop(&mut self) -> Option<(Moment, E)>
        ensures popped { IfSome result (λ entry. Pops (O.before self.old.order) self.old self.new entry) }
        ensures after { IfSome result (λ entry. ForSome self.old.last (λ last. O.before self.old.order last entry.0)) }
        ensures count { IfSome result (λ _. length self.old.entries ≡ length self.new.entries + 1) }
        ensures none { IsNone result ↔ (self.old.entries ≡ []) }
        ensures unchanged { IfNone result (self.new ≡ self.old) }
    {
        let entry = self.entries.pop()?;
        self.last = Some(entry.0);
        Some(entry)
    }
}
