//! A sink in memory whose writes fail where it is planned.

ghost use Rattle.std.specs.Prelude.{◌≡◌, ◌==◌, ◌+◌, ◌-◌, ◌<◌, ◌≤◌, ◌||◌, [], Some, length, take, min, is_err, IfOk};
ghost use Rattle.std.specs.Prelude.{OnErr, OnOk};
ghost use Rattle.ats_io.specs.Outside.{Rose, appended};
ghost use Rattle.ats_io.specs.Memory.{next_count, is_planned};

use crate::fault::Failed;
use crate::plan;
use crate::sink::Sink;
use std::alloc::{AllocError, Global};
use std::marker::Model;

/// A sink for tests: a buffer that takes its memory at the start, tells what it took, and fails
/// when a test wants it to.
///
/// A write takes up to `most` bytes, as far as there is room. It fails where the buffer is full,
/// and where its number, the first write being 1, is in the list that was given; then the count of
/// faults goes up. Counters that reach the greatest `u64` stay there. In contracts it is the record
/// `HeldText`.
#[derive(Drop)]
pub struct MemSink {
    bytes: Vec<u8>,
    room: usize,
    most: usize,
    fails: Vec<u32>,
    calls: u64,
    raised: u64,
}

impl Model for MemSink {
    ghost use Rattle.std.specs.Prelude.{◌<◌, ◌≤◌, vec_len, vec_capacity};
    ghost use Rattle.ats_io.specs.Memory.{HeldText};

    ghost Value = { HeldText };

    ghost view = { λ s. record {
      bytes = s.bytes.items;
      room = s.room;
      most = s.most;
      fails = s.fails.items;
      calls = s.calls;
      raised = s.raised;
    } };

    ghost invariant = { λ s. (0 < s.most) × (vec_len s.bytes ≤ s.room) × (s.room ≤ vec_capacity s.bytes) };
}

impl MemSink {
    /// An empty sink with room for so many bytes, which takes at most `most` bytes a call, and at
    /// least 1; the calls with the numbers in `fails` are to fail. `AllocError` where there is no
    /// memory for the buffer.
    pub fn new(alloc: Global, room: usize, most: usize, fails: Vec<u32>) -> Result<Self, AllocError>
        requires { 0 < most }
        ensures held { IfOk result (λ made. ⟦<MemSink as Sink>⟧.held made ≡ Some []) }
        ensures faults { IfOk result (λ made. ⟦<MemSink as Sink>⟧.faults made ≡ 0) }
        ensures room { IfOk result (λ made. made.room ≡ room) }
        ensures most { IfOk result (λ made. made.most ≡ most) }
        ensures calls { IfOk result (λ made. made.calls ≡ 0) }
        ensures fails { IfOk result (λ made. made.fails ≡ fails.items) }
    {
        let bytes = Vec::with_capacity(alloc, room)?;
        Ok(MemSink {
            bytes,
            room,
            most,
            fails,
            calls: 0,
            raised: 0,
        })
    }

    /// The bytes that it holds.
    pub fn bytes(&self) -> &[u8]
        ensures { ⟦<MemSink as Sink>⟧.held self.now ≡ Some result.now }
    {
        &self.bytes
    }
}

impl Sink for MemSink {
    ghost held = { λ s. Some s.bytes };

    ghost faults = { λ s. s.raised };

    fn write(&mut self, piece: &[u8]) -> Result<usize, Failed>
        requires { 0 < length piece.now }
        ensures some { IfOk result (λ count. 0 < count) }
        ensures within { IfOk result (λ count. count ≤ length piece.now) }
        ensures taken { IfOk result
            (λ count. Some self.new.bytes ≡ appended (Some self.old.bytes) (take count piece.now)) }
        ensures failed { OnErr result (Rose self.old.raised self.new.raised) }
        ensures calm { OnOk result (self.new.raised ≡ self.old.raised) }
        ensures unchanged { OnErr result (Some self.new.bytes ≡ Some self.old.bytes) }
        ensures counts { self.old.raised ≤ self.new.raised }
        ensures full { IfOk result
            (λ count. count ≡ min (min (length piece.now) self.old.most) (self.old.room - length self.old.bytes)) }
        ensures fails { is_err result
            ≡ (length self.old.bytes == self.old.room || is_planned self.old.fails (next_count self.old.calls)) }
        ensures calls { self.new.calls ≡ next_count self.old.calls }
        ensures plan { self.new.fails ≡ self.old.fails }
        ensures room { self.new.room ≡ self.old.room }
        ensures most { self.new.most ≡ self.old.most }
    {
        self.calls = plan::next_count(self.calls);
        if self.bytes.len() == self.room || plan::is_planned(&self.fails, self.calls) {
            self.raised = plan::next_count(self.raised);
            return Err(Failed);
        }
        let left = self.room - self.bytes.len();
        let count = piece.len().min(self.most).min(left);
        self.bytes.extend_from_slice(&piece[..count]).unwrap();
        Ok(count)
    }
}
