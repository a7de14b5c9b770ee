//! What moves items to their places. The item at place `j` stands above those at `4 * j + 1` to `4 * j + 4`. A hole
//! moves up or down, and an item is put there at last.

ghost use Rattle.std.specs.Prelude.{ℕ, ◌≡◌, ◌+◌, ◌*◌, ◌<◌, ◌≤◌, ◌^◌, ◌∷◌, [], ◌++◌, length, slice_set, slice_index_or};
ghost use Rattle.std.specs.Prelude.{All, IfSome, IfNone, IsPermutation, if◌then◌else◌};
ghost use Rattle.ats_heap.specs.Inside.{Leads, IsBelow, IsHeap, IsHeapAround, Fits, IsFirstBelow, IsLaterAbove};
ghost use Rattle.ats_heap.specs.Inside.{AreFour, IsFirstOf};

use crate::precedence::Precedence;

/// How many items stand below each.
const WIDTH: usize = 4;

/// The item goes up from the hole at this place, past those that it goes before.
pub(crate) fn rise<T: Copy, O: Precedence<T>>(order: O, items: &mut [T], place: usize, item: T)
    requires within { place < length items.old }
    requires covered { All (O.covers order) items.old }
    requires item { O.covers order item }
    requires around { IsHeapAround (Leads (O.covers order) (O.goes_before order)) items.old place }
    requires fits { Fits (Leads (O.covers order) (O.goes_before order)) items.old place item }
    ensures items { IsPermutation (slice_set items.old place item) items.new }
    ensures heap { IsHeap (Leads (O.covers order) (O.goes_before order)) items.new }
{
    let mut hole = place;
    while let Some(above) = later_above(order, items, hole, item) {
        items[hole] = items[above];
        hole = above;
    }
    items[hole] = item;
}

/// The place above the hole, where the item goes before what stands there.
fn later_above<T: Copy, O: Precedence<T>>(
    order: O,
    items: &[T],
    hole: usize,
    item: T,
) -> Option<usize>
    requires within { hole < length items.now }
    requires covered { All (O.covers order) items.now }
    requires item { O.covers order item }
    ensures some { IfSome result (IsLaterAbove (Leads (O.covers order) (O.goes_before order)) items.now hole item) }
    ensures none { IfNone result ((above : ℕ) (d : T) → IsBelow above hole
        → Leads (O.covers order) (O.goes_before order) (slice_index_or items.now above d) item) }
{
    if hole == 0 {
        return None;
    }
    let above = (hole - 1) / WIDTH;
    if order.goes_before(&item, &items[above]) {
        return Some(above);
    }
    None
}

/// Puts the item in for the first of a heap whose last it was, and gives the first. Where it was the only one, it is
/// given itself.
pub(crate) fn settle<T: Copy, O: Precedence<T>>(order: O, items: &mut [T], item: T) -> T
    requires small { length items.old < 2 ^ 32 }
    requires covered { All (O.covers order) (items.old ++ item ∷ []) }
    requires heap { IsHeap (Leads (O.covers order) (O.goes_before order)) (items.old ++ item ∷ []) }
    ensures items { IsPermutation (items.old ++ item ∷ []) (result ∷ items.new) }
    ensures first { All (Leads (O.covers order) (O.goes_before order) result) items.new }
    ensures heap { IsHeap (Leads (O.covers order) (O.goes_before order)) items.new }
{
    if items.is_empty() {
        return item;
    }
    let first = items[0];
    let hole = sink(order, items);
    rise(order, items, hole, item);
    first
}

/// Makes a hole of the first place, and moves it down to where nothing is below: each time the first item below it goes
/// up. Gives the place of the hole.
fn sink<T: Copy, O: Precedence<T>>(order: O, items: &mut [T]) -> usize
    requires small { length items.old < 2 ^ 32 }
    requires some { 0 < length items.old }
    requires covered { All (O.covers order) items.old }
    requires heap { IsHeap (Leads (O.covers order) (O.goes_before order)) items.old }
    ensures within { result < length items.new }
    ensures count { length items.new ≡ length items.old }
    ensures items { (item : T) → IsPermutation (slice_set items.old 0 item) (slice_set items.new result item) }
    ensures covered { All (O.covers order) items.new }
    ensures around { IsHeapAround (Leads (O.covers order) (O.goes_before order)) items.new result }
    ensures bottom { length items.new ≤ 4 * result + 1 }
{
    let mut hole = 0;
    while let Some(below) = first_below(order, items, hole) {
        items[hole] = items[below];
        hole = below;
    }
    hole
}

/// The place, of those below this one, of the item that goes first.
fn first_below<T: Copy, O: Precedence<T>>(order: O, items: &[T], place: usize) -> Option<usize>
    requires small { length items.now < 2 ^ 32 }
    requires within { place < length items.now }
    requires covered { All (O.covers order) items.now }
    ensures some { IfSome result (IsFirstBelow (Leads (O.covers order) (O.goes_before order)) items.now place) }
    ensures none { IfNone result (length items.now ≤ 4 * place + 1) }
{
    let first = WIDTH * place + 1;
    if first + 3 < items.len() {
        return Some(first_of_four(order, items, first, first + 1, first + 2, first + 3));
    }
    if first >= items.len() {
        return None;
    }
    let last = items.len() - 1;
    let second = (first + 1).min(last);
    let third = (first + 2).min(last);
    Some(first_of_four(order, items, first, second, third, last))
}

/// The place, of these four, of the item that goes first. Which one does is seldom foreseen, so the place is made of
/// the answers, with no branch. Each item is compared with each other, so that no comparison waits for another's
/// answer.
fn first_of_four<T: Copy, O: Precedence<T>>(
    order: O,
    items: &[T],
    first: usize,
    second: usize,
    third: usize,
    last: usize,
) -> usize
    requires covered { All (O.covers order) items.now }
    requires places { AreFour first second third last }
    requires within { last < length items.now }
    ensures { IsFirstOf (Leads (O.covers order) (O.goes_before order)) items.now first last result }
{
    let (one, two, three, four) = (items[first], items[second], items[third], items[last]);
    let is_two = order.goes_before(&two, &one);
    let is_four = order.goes_before(&four, &three);
    let before_one = either(
        is_four,
        order.goes_before(&four, &one),
        order.goes_before(&three, &one),
    );
    let before_two = either(
        is_four,
        order.goes_before(&four, &two),
        order.goes_before(&three, &two),
    );
    let is_behind = either(is_two, before_two, before_one);
    place_of(
        is_behind,
        place_of(is_two, first, second),
        place_of(is_four, third, last),
    )
}

/// The answer for the case that holds, with no branch.
fn either(holds: bool, yes: bool, no: bool) -> bool
    ensures { result ≡ (if holds then yes else no) }
{
    (holds & yes) | (!holds & no)
}

/// The second place where it is that one, else the first, with no branch.
fn place_of(is_second: bool, first: usize, second: usize) -> usize
    requires { first ≤ second }
    ensures { result ≡ (if is_second then second else first) }
{
    first + is_second as usize * (second - first)
}
