//! Items that wait in a line.

ghost use Rattle.std.specs.Prelude.{◌≡◌, ◌↔◌, ◌+◌, ◌-◌, ◌<◌, Some, [], ◌∷◌, ◌++◌, length};
ghost use Rattle.std.specs.Prelude.{slice_get, insert, vec_len, vec_capacity, if◌then◌else◌};
ghost use Rattle.std.specs.Prelude.{IsTrue, IfNone, IfOk};
ghost use Rattle.std.specs.Option.{option_to_list};

use std::alloc::{AllocError, Global};
use std::marker::Model;

/// Items in a line, with room behind the last one and, once items were taken, before the first one. Contracts see them
/// as a list, the first one first. The first stands apart, so that a line of one item touches no place of the array.
#[derive(Drop)]
pub(crate) struct Line<T: Copy> {
    first: Option<T>,
    gone: usize,
    items: Vec<T>,
}

impl<T: Copy> Model for Line<T> {
    ghost use Rattle.std.specs.Prelude.{List, drop};

    ghost Value = { List T };

    ghost use Rattle.std.specs.Prelude.{◌++◌};
    ghost use Rattle.std.specs.Option.{option_to_list};
    ghost use Rattle.ats_heap.specs.Inside.{IsStored};

    ghost view = { λ l. option_to_list l.first ++ drop l.gone l.items.items };

    ghost invariant = { λ l. IsStored l.first l.gone l.items.items };
}

impl<T: Copy> Line<T> {
    /// An empty line with room for so many items. `AllocError` where memory runs out.
    pub(crate) fn open(alloc: Global, capacity: u32) -> Result<Line<T>, AllocError>
        ensures { IfOk result (λ line. line ≡ []) }
    {
        Ok(Line {
            first: None,
            gone: 0,
            items: Vec::with_capacity(alloc, capacity as usize)?,
        })
    }

    /// The first item. `None` exactly where there is none.
    pub(crate) fn first(&self) -> Option<T>
        ensures { result ≡ slice_get self.now 0 }
    {
        self.first
    }

    /// The last item. `None` exactly where there is none.
    pub(crate) fn last(&self) -> Option<T>
        ensures { result ≡ slice_get self.now (length self.now - 1) }
    {
        if self.gone == self.items.len() {
            return self.first;
        }
        Some(self.items[self.items.len() - 1])
    }

    /// How many items stand behind the first one.
    pub(crate) fn waiting(&self) -> usize
        ensures { result ≡ length self.now - 1 }
    {
        self.items.len() - self.gone
    }

    /// The item at this place.
    pub(crate) fn at(&self, place: usize) -> T
        requires { place < length self.now }
        ensures { slice_get self.now place ≡ Some result }
    {
        if place == 0 {
            return self.first.unwrap();
        }
        self.items[self.gone + (place - 1)]
    }

    /// Puts an item before the first one, where there is room, and tells whether there is. It takes no memory.
    pub(crate) fn push_first(&mut self, item: T) -> bool
        ensures { self.new ≡ (if result then item ∷ self.old else self.old) }
    {
        let first = match self.first {
            Some(first) => first,
            None => {
                self.first = Some(item);
                return true;
            }
        };
        if self.gone == 0 {
            return false;
        }
        self.gone -= 1;
        self.items[self.gone] = first;
        self.first = Some(item);
        true
    }

    /// Whether there is no room behind the last item. No clause says so: it is a matter of memory
    /// alone.
    pub(crate) fn is_full(&self) -> bool {
        !has_room(&self.items)
    }

    /// Puts an item behind the last one, where there is room, and tells whether there is. It takes no memory.
    pub(crate) fn push_last(&mut self, item: T) -> bool
        ensures { self.new ≡ (if result then self.old ++ item ∷ [] else self.old) }
    {
        if self.first.is_none() {
            self.first = Some(item);
            return true;
        }
        if !has_room(&self.items) {
            return false;
        }
        self.items.push(item).unwrap();
        true
    }

    /// Puts an item behind the one at this place, where there is room, and tells whether there is.
    /// It takes no memory.
    pub(crate) fn put_behind(&mut self, place: usize, item: T) -> bool
        requires { place < length self.old }
        ensures { self.new ≡ (if result then insert self.old (place + 1) item else self.old) }
    {
        if !has_room(&self.items) {
            return false;
        }
        self.items.insert(self.gone + place, item).unwrap();
        true
    }

    /// Takes out the first item. `None` exactly where there is none, and then nothing changes. Where none is left, all
    /// room is behind.
    pub(crate) fn take(&mut self) -> Option<T>
        ensures items { self.old ≡ option_to_list result ++ self.new }
        ensures none { IfNone result (self.old ≡ []) }
    {
        let first = match self.first {
            Some(first) => first,
            None => return None,
        };
        if self.gone == self.items.len() {
            self.items.clear();
            self.gone = 0;
            self.first = None;
            return Some(first);
        }
        self.first = Some(self.items[self.gone]);
        self.gone += 1;
        Some(first)
    }
}

/// Whether there is room for an item more.
fn has_room<T: Copy>(items: &Vec<T>) -> bool
    ensures { IsTrue result ↔ (vec_len items.now < vec_capacity items.now) }
{
    items.len() < items.capacity()
}
