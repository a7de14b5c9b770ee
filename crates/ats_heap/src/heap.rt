//! The heap.

ghost use Rattle.std.specs.Prelude.{◌≡◌, ◌↔◌, ◌+◌, ◌<◌, [], ◌∷◌, length, IsNone, IfNone, IfSome, IfOk, IsPermutation};
ghost use Rattle.ats_heap.specs.Steps.{Pops, IsFirst};

use crate::joining::{first_of, put, take_first};
use crate::line::Line;
use crate::precedence::Precedence;
use crate::tree::Tree;
use std::alloc::{AllocError, Global};
use std::marker::Model;

/// Items in an order. Contracts see them as a list, whose order means nothing, and the capacity and the order that the
/// heap was opened with. An item that comes in its order, or nearly so, waits in a line, where that
/// has room; any other stands in a tree.
#[derive(Drop)]
pub struct Heap<T: Copy, O: Precedence<T>> {
    tree: Tree<T, O>,
    line: Line<T>,
}

impl<T: Copy, O: Precedence<T>> Model for Heap<T, O> {
    ghost use Rattle.ats_heap.specs.Contents.{Contents};

    ghost Value = { Contents T O };

    ghost use Rattle.ats_heap.specs.Contents.{joined};
    ghost use Rattle.ats_heap.specs.Inside.{AreKept};

    ghost view = { λ h. joined h.line h.tree };

    ghost invariant = { λ h. AreKept (O.covers h.tree.order) (O.goes_before h.tree.order) h.line h.tree.items };
}

impl<T: Copy, O: Precedence<T>> Heap<T, O> {
    /// An empty heap with room for so many items, in this order. `AllocError` where memory runs out.
    pub fn open(alloc: Global, capacity: u32, order: O) -> Result<Heap<T, O>, AllocError>
        ensures { IfOk result (λ heap. heap ≡ record { items = []; capacity = capacity; order = order }) }
    {
        Heap::open_short(alloc, capacity, capacity, order)
    }

    /// As `open`, where at most one item more than `waiting` waits in the line. No clause says so: it is a matter of
    /// memory alone. `AllocError` where memory runs out.
    pub fn open_short(
        alloc: Global,
        capacity: u32,
        waiting: u32,
        order: O,
    ) -> Result<Heap<T, O>, AllocError>
        ensures { IfOk result (λ heap. heap ≡ record { items = []; capacity = capacity; order = order }) }
    {
        Ok(Heap {
            tree: Tree::open(alloc, capacity, order)?,
            line: Line::open(alloc, waiting)?,
        })
    }

    /// Adds an item that the order covers to a heap that has room. It takes no memory.
    pub fn insert(&mut self, item: T)
        requires room { length self.old.items < self.old.capacity }
        requires covered { O.covers self.old.order item }
        ensures items { IsPermutation (item ∷ self.old.items) self.new.items }
        ensures count { length self.new.items ≡ length self.old.items + 1 }
        ensures rest { self.new ≡ record self.old { items = self.new.items } }
    {
        put(&mut self.line, &mut self.tree, item);
    }

    /// Takes out an item that no other goes before. `None` exactly where there is none, and then nothing changes. It
    /// takes no memory.
    pub fn pop(&mut self) -> Option<T>
        ensures popped { IfSome result (Pops (O.goes_before self.old.order) self.old.items self.new.items) }
        ensures count { IfSome result (λ _. length self.old.items ≡ length self.new.items + 1) }
        ensures none { IsNone result ↔ (self.old.items ≡ []) }
        ensures unchanged { IfNone result (self.new ≡ self.old) }
        ensures rest { self.new ≡ record self.old { items = self.new.items } }
    {
        take_first(&mut self.line, &mut self.tree)
    }

    /// An item that no other goes before. `None` exactly where there is none.
    pub fn peek(&self) -> Option<T>
        ensures first { IfSome result (IsFirst (O.goes_before self.now.order) self.now.items) }
        ensures none { IsNone result ↔ (self.now.items ≡ []) }
    {
        first_of(&self.line, &self.tree)
    }
}
