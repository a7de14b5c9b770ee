//! Which of two items goes first.

ghost use Rattle.std.specs.Prelude.{◌↔◌, IsTrue};
ghost use Rattle.ats_heap.specs.Order.{IsWeakOrder};

/// An order of items. It covers some of them, as those whose numbers fit their types. Of two that it covers at most one
/// goes before the other, and where a second does not go before a first, nor a third before the second, the third does
/// not go before the first. Items may tie.
pub trait Precedence<T: Copy>: Copy {
    /// The order speaks of this item.
    ghost covers: { Self → T → Type 0 };

    /// The first item goes before the second.
    ghost goes_before: { Self → T → T → Type 0 };

    /// Whether `x` goes before `y`.
    fn goes_before(&self, x: &T, y: &T) -> bool
        ensures { IsTrue result ↔ goes_before self.now x.now y.now };

    /// It is a weak order of the items that it covers.
    ghost weak_order: { (order : Self) → IsWeakOrder (covers order) (goes_before order) };
}
