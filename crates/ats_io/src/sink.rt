//! A sink that takes text.

ghost use Rattle.std.specs.Prelude.{◌≡◌, ℕ, ◌<◌, ◌≤◌, List, length, take, Option, IfOk, OnErr, OnOk};
ghost use Rattle.ats_io.specs.Outside.{Rose, appended};

use crate::fault::Failed;

/// A taker of bytes. Contracts see the bytes that it holds, where the implementation tells them,
/// and a count of faults that never falls.
pub trait Sink {
    ghost held: { Self → Option (List ℕ) };

    ghost faults: { Self → ℕ };

    /// Takes bytes from the front of the piece, at least one, and gives their number; then the count
    /// of faults did not change. `Failed` comes only where it rose, and then nothing is taken.
    fn write(&mut self, piece: &[u8]) -> Result<usize, Failed>
        requires { 0 < length piece.now }
        ensures some { IfOk result (λ count. 0 < count) }
        ensures within { IfOk result (λ count. count ≤ length piece.now) }
        ensures taken { IfOk result (λ count. held self.new ≡ appended (held self.old) (take count piece.now)) }
        ensures failed { OnErr result (Rose (faults self.old) (faults self.new)) }
        ensures calm { OnOk result (faults self.new ≡ faults self.old) }
        ensures unchanged { OnErr result (held self.new ≡ held self.old) }
        ensures counts { faults self.old ≤ faults self.new };
}
