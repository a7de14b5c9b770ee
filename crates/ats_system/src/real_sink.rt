//! Standard output.

ghost use Rattle.std.specs.Prelude.{◌≡◌, ℕ, ◌<◌, ◌≤◌, None, length, IfOk, OnOk, OnErr};
ghost use Rattle.ats_io.specs.Memory.{next_count};
ghost use Rattle.ats_io.specs.Outside.{Rose};

use ats_io::{Failed, Sink};
use std::io::Print;

/// The standard output of a runtime. It tells nothing of what it took, and has one count of faults,
/// from 0 to the last value of 64 bits.
///
/// It keeps no buffer: what a write says was taken, the system has taken. A write fails where the
/// system reports an error, as at a closed output or a full disk, and where it takes no byte.
#[derive(Drop)]
pub struct RealSink<R> {
    rt: R,
    raised: u64,
}

impl<R: Print> RealSink<R> {
    /// The sink, with no fault yet. It takes no memory.
    pub fn new(rt: R) -> Self
        ensures { ⟦<RealSink<R> as Sink>⟧.faults result ≡ 0 }
    {
        RealSink { rt, raised: 0 }
    }
}

impl<R: Print> Sink for RealSink<R> {
    ghost held = { λ _. None };

    ghost faults = { λ s. s.raised };

    fn write(&mut self, piece: &[u8]) -> Result<usize, Failed>
        requires { 0 < length piece.now }
        ensures some { IfOk result (λ count. 0 < count) }
        ensures within { IfOk result (λ count. count ≤ length piece.now) }
        ensures failed { OnErr result (Rose self.old.raised self.new.raised) }
        ensures counts { self.old.raised ≤ self.new.raised }
        ensures raised { OnErr result (self.new.raised ≡ next_count self.old.raised) }
        ensures calm { OnOk result (self.new.raised ≡ self.old.raised) }
    {
        match self.rt.write_some(piece) {
            Ok(count) if count > 0 => Ok(count),
            _ => {
                self.raised = self.raised.saturating_add(1);
                Err(Failed)
            }
        }
    }
}
