//! Files that are read by name.

ghost use Rattle.std.specs.Prelude.{◌≡◌, ℕ, ◌<◌, ◌≤◌, List, length, Option, IfOk, OnErr, OnOk};
ghost use Rattle.ats_io.specs.Outside.{Rose, IfTold, Continues, IsPieceAt};
ghost use Rattle.ats_io.specs.Reads.{Read, and_read};

use crate::fault::Failed;

/// The greatest place in a file from which a read may ask, in bytes.
pub const MAX_PLACE: u64 = 268_435_456;

/// Files by name. Contracts see the bytes that each name holds, where the implementation tells
/// them, for each name a count of faults, and the reads that were made so far, in order. The held
/// bytes never change, no count falls, and no read is forgotten.
pub trait Files {
    ghost told: { Self → List ℕ → Option (List ℕ) };

    ghost faults: { Self → List ℕ → ℕ };

    ghost reads: { Self → List Read };

    /// Reads bytes of the file `name` from place `at` into the front of the buffer, and gives their
    /// number, 0 only at or past the end of the file; then no count of faults changed. `Failed` comes
    /// only where the count of the name rose. Either way it is one read more, and the last one.
    fn read(&mut self, name: &str, at: u64, buf: &mut [u8]) -> Result<usize, Failed>
        requires room { 0 < length buf.old }
        requires place { at ≤ MAX_PLACE }
        ensures within { IfOk result (λ count. count ≤ length buf.new) }
        ensures piece { IfOk result
            (λ count. IfTold (told self.old name.now) (λ bytes. IsPieceAt bytes at count buf.new)) }
        ensures failed { OnErr result (Rose (faults self.old name.now) (faults self.new name.now)) }
        ensures calm { OnOk result (faults self.new ≡ faults self.old) }
        ensures continues { Continues told faults self.old self.new }
        ensures made { reads self.new ≡ and_read (reads self.old) name.now at result };
}
