//! A line and a tree of items, as one heap.

ghost use Rattle.std.specs.Prelude.{◌≡◌, ◌↔◌, ◌<◌, [], ◌∷◌, ◌++◌, length, All, Any, IsNone, IfNone, IfSome};
ghost use Rattle.std.specs.Prelude.{IsPermutation};
ghost use Rattle.std.specs.Bool.{OnTrue, OnFalse};
ghost use Rattle.ats_heap.specs.Contents.{joined};
ghost use Rattle.ats_heap.specs.Inside.{Leads, IsLine, IsAhead, IsLastLeader, AreKept};
ghost use Rattle.ats_heap.specs.Steps.{Pops, IsFirst};

use crate::line::Line;
use crate::precedence::Precedence;
use crate::tree::Tree;

/// How many items at the end of a line one may be put before. Items that come in the order of time,
/// but otherwise at equal times, belong behind all but a few. One look, at the item that so many
/// stand behind, tells of any other.
const NEAR: usize = 16;

/// Whether an item goes before none of a line.
fn is_last<T: Copy, O: Precedence<T>>(order: O, line: &Line<T>, item: T) -> bool
    requires line { IsLine (O.covers order) (O.goes_before order) line.now }
    requires item { O.covers order item }
    ensures all { OnTrue result
        (All (λ x. Leads (O.covers order) (O.goes_before order) x item) line.now) }
    ensures some { OnFalse result (0 < length line.now) }
{
    let Some(last) = line.last() else {
        return true;
    };
    if order.goes_before(&item, &last) {
        return false;
    }
    true
}

/// Whether a line has items, none of which goes before this one.
fn is_first<T: Copy, O: Precedence<T>>(order: O, line: &Line<T>, item: T) -> bool
    requires line { IsLine (O.covers order) (O.goes_before order) line.now }
    requires item { O.covers order item }
    ensures { OnTrue result (All (Leads (O.covers order) (O.goes_before order) item) line.now) }
{
    let Some(first) = line.first() else {
        return false;
    };
    if order.goes_before(&first, &item) {
        return false;
    }
    true
}

/// The place of the last item of a line that this one does not go before, where at most `NEAR`
/// stand behind that.
fn near_end<T: Copy, O: Precedence<T>>(order: O, line: &Line<T>, item: T) -> Option<usize>
    requires line { IsLine (O.covers order) (O.goes_before order) line.now }
    requires some { 0 < length line.now }
    requires item { O.covers order item }
    ensures { IfSome result
        (IsLastLeader (Leads (O.covers order) (O.goes_before order)) line.now item) }
{
    let mut place = line.waiting();
    let least = place.saturating_sub(NEAR);
    if order.goes_before(&item, &line.at(least)) {
        return None;
    }
    while order.goes_before(&item, &line.at(place)) {
        place -= 1;
    }
    Some(place)
}

/// Puts an item at an end of a line or near the last, where it belongs there and there is room, and
/// tells whether it did.
fn join<T: Copy, O: Precedence<T>>(order: O, line: &mut Line<T>, item: T) -> bool
    requires line { IsLine (O.covers order) (O.goes_before order) line.old }
    requires item { O.covers order item }
    ensures items { OnTrue result (IsPermutation (item ∷ line.old) line.new) }
    ensures same { OnFalse result (line.new ≡ line.old) }
    ensures line { IsLine (O.covers order) (O.goes_before order) line.new }
{
    if is_first(order, line, item) {
        return line.push_first(item);
    }
    if is_last(order, line, item) {
        return line.push_last(item);
    }
    if line.is_full() {
        return false;
    }
    let Some(place) = near_end(order, line, item) else {
        return false;
    };
    line.put_behind(place, item)
}

/// Adds an item, to the line where it comes in its order or nearly so, else to the tree.
pub(crate) fn put<T: Copy, O: Precedence<T>>(line: &mut Line<T>, tree: &mut Tree<T, O>, item: T)
    requires room { length tree.old.items < tree.old.capacity }
    requires kept { AreKept (O.covers tree.old.order) (O.goes_before tree.old.order) line.old tree.old.items }
    requires item { O.covers tree.old.order item }
    ensures items { IsPermutation (item ∷ (line.old ++ tree.old.items)) (line.new ++ tree.new.items) }
    ensures kept { AreKept (O.covers tree.old.order) (O.goes_before tree.old.order) line.new tree.new.items }
    ensures rest { tree.new ≡ record tree.old { items = tree.new.items } }
{
    if join(tree.order(), line, item) {
        return;
    }
    tree.insert(item);
}

/// Whether the first item of the line goes before the tree's or ties with it.
fn is_ahead<T: Copy, O: Precedence<T>>(line: &Line<T>, tree: &Tree<T, O>) -> bool
    requires { AreKept (O.covers tree.now.order) (O.goes_before tree.now.order) line.now tree.now.items }
    ensures line { OnTrue result
        (IsAhead (Leads (O.covers tree.now.order) (O.goes_before tree.now.order)) line.now tree.now.items) }
    ensures tree { OnFalse result
        (All (λ x. Any (λ top. Leads (O.covers tree.now.order) (O.goes_before tree.now.order) top x) tree.now.items)
        line.now) }
{
    let Some(first) = line.first() else {
        return false;
    };
    let Some(top) = tree.peek() else {
        return true;
    };
    if tree.order().goes_before(&top, &first) {
        return false;
    }
    true
}

/// Takes out an item that no other goes before, of the line or of the tree.
pub(crate) fn take_first<T: Copy, O: Precedence<T>>(
    line: &mut Line<T>,
    tree: &mut Tree<T, O>,
) -> Option<T>
    requires { AreKept (O.covers tree.old.order) (O.goes_before tree.old.order) line.old tree.old.items }
    ensures popped { IfSome result
        (Pops (O.goes_before tree.old.order) (line.old ++ tree.old.items) (line.new ++ tree.new.items)) }
    ensures none { IsNone result ↔ (line.old ++ tree.old.items ≡ []) }
    ensures unchanged { IfNone result (joined line.new tree.new ≡ joined line.old tree.old) }
    ensures kept { AreKept (O.covers tree.old.order) (O.goes_before tree.old.order) line.new tree.new.items }
    ensures rest { tree.new ≡ record tree.old { items = tree.new.items } }
{
    if is_ahead(line, tree) {
        return line.take();
    }
    tree.pop()
}

/// An item that no other goes before, of the line or of the tree.
pub(crate) fn first_of<T: Copy, O: Precedence<T>>(line: &Line<T>, tree: &Tree<T, O>) -> Option<T>
    requires { AreKept (O.covers tree.now.order) (O.goes_before tree.now.order) line.now tree.now.items }
    ensures first { IfSome result (IsFirst (O.goes_before tree.now.order) (line.now ++ tree.now.items)) }
    ensures none { IsNone result ↔ (line.now ++ tree.now.items ≡ []) }
{
    if is_ahead(line, tree) {
        return line.first();
    }
    tree.peek()
}
