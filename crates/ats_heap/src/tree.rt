//! A heap in one array.

ghost use Rattle.std.specs.Prelude.{◌≡◌, ◌↔◌, ◌+◌, ◌<◌, ◌≤◌, [], ◌∷◌, length, IsNone, IfNone, IfSome, IfOk};
ghost use Rattle.std.specs.Prelude.{IsPermutation};
ghost use Rattle.ats_heap.specs.Steps.{Pops, IsFirst};

use crate::precedence::Precedence;
use crate::sift::{rise, settle};
use std::alloc::{AllocError, Global};
use std::marker::Model;

/// The least room of an array that has any. The system's allocator keeps some blocks of each size up to 1,032 bytes
/// when they are freed, and what lies below them stays with the program; 44 entries of a queue take 1,056.
const LEAST: u32 = 44;

/// Items in an order, each of which stands above up to four others. Contracts see them as a heap: a list, whose order
/// means nothing, and the capacity and the order that the tree was opened with.
#[derive(Drop)]
pub(crate) struct Tree<T: Copy, O: Precedence<T>> {
    items: Vec<T>,
    capacity: u32,
    order: O,
}

impl<T: Copy, O: Precedence<T>> Model for Tree<T, O> {
    ghost use Rattle.ats_heap.specs.Contents.{Contents};

    ghost Value = { Contents T O };

    ghost use Rattle.std.specs.Prelude.{vec_capacity};
    ghost use Rattle.ats_heap.specs.Inside.{IsKept};

    ghost view = { λ h. record { items = h.items.items; capacity = h.capacity; order = h.order } };

    ghost invariant = { λ h. IsKept (O.covers h.order) (O.goes_before h.order) h.items.items h.capacity
        (vec_capacity h.items) };
}

impl<T: Copy, O: Precedence<T>> Tree<T, O> {
    /// An empty tree with room for so many items, in this order. `AllocError` where memory runs out.
    pub(crate) fn open(alloc: Global, capacity: u32, order: O) -> Result<Tree<T, O>, AllocError>
        ensures { IfOk result (λ tree. tree ≡ record { items = []; capacity = capacity; order = order }) }
    {
        Ok(Tree {
            items: Vec::with_capacity(alloc, room_for(capacity))?,
            capacity,
            order,
        })
    }

    /// The order of its items.
    pub(crate) fn order(&self) -> O
        ensures { result ≡ self.now.order }
    {
        self.order
    }

    /// Adds an item that the order covers to a tree that has room. It takes no memory.
    pub(crate) fn insert(&mut self, item: T)
        requires room { length self.old.items < self.old.capacity }
        requires covered { O.covers self.old.order item }
        ensures items { IsPermutation (item ∷ self.old.items) self.new.items }
        ensures count { length self.new.items ≡ length self.old.items + 1 }
        ensures rest { self.new ≡ record self.old { items = self.new.items } }
    {
        let place = self.items.len();
        self.items.push(item).unwrap();
        rise(self.order, &mut self.items, place, item);
    }

    /// Takes out an item that no other goes before. `None` exactly where there is none, and then nothing changes. It
    /// takes no memory.
    pub(crate) fn pop(&mut self) -> Option<T>
        ensures popped { IfSome result (Pops (O.goes_before self.old.order) self.old.items self.new.items) }
        ensures count { IfSome result (λ _. length self.old.items ≡ length self.new.items + 1) }
        ensures none { IsNone result ↔ (self.old.items ≡ []) }
        ensures unchanged { IfNone result (self.new ≡ self.old) }
        ensures rest { self.new ≡ record self.old { items = self.new.items } }
    {
        let last = self.items.pop()?;
        Some(settle(self.order, &mut self.items, last))
    }

    /// An item that no other goes before. `None` exactly where there is none.
    pub(crate) fn peek(&self) -> Option<T>
        ensures first { IfSome result (IsFirst (O.goes_before self.now.order) self.now.items) }
        ensures none { IsNone result ↔ (self.now.items ≡ []) }
    {
        if self.items.is_empty() {
            return None;
        }
        Some(self.items[0])
    }
}

/// The room of an array for so many items: none, or for some more where they are few.
fn room_for(capacity: u32) -> usize
    ensures { capacity ≤ result }
{
    if capacity == 0 {
        return 0;
    }
    capacity.max(LEAST) as usize
}
