//! A line that is made from its end to its front.

ghost use Rattle.std.specs.Prelude.{◌≡◌, ◌+◌, ◌≤◌, [], ◌++◌, length, decimal};

use itoa::write_digits;
use std::marker::Model;

// The room of a line, in bytes.
const ROOM: usize = 256;

/// A line of at most 256 bytes, in front of which more is put, so that it is made in one place and copied once.
/// Contracts see its bytes.
#[derive(Drop)]
pub(crate) struct Line {
    bytes: [u8; ROOM],
    start: usize,
}

impl Model for Line {
    ghost use Rattle.std.specs.Prelude.{ℕ, List, drop, ◌≤◌};

    ghost Value = { List ℕ };

    ghost view = { λ l. drop l.start l.bytes };

    ghost invariant = { λ l. l.start ≤ 256 };
}

impl Line {
    /// An empty line.
    pub(crate) fn new() -> Line
        ensures { result ≡ [] }
    {
        Line {
            bytes: [0; ROOM],
            start: ROOM,
        }
    }

    /// Its bytes.
    pub(crate) fn bytes(&self) -> &[u8]
        ensures { result.now ≡ self.now }
    {
        &self.bytes[self.start..]
    }

    /// Puts a word in front.
    #[inline(always)]
    pub(crate) fn put(&mut self, word: &[u8])
        requires { length word.now + length self.old ≤ 256 }
        ensures text { self.new ≡ word.now ++ self.old }
        ensures long { length self.new ≡ length word.now + length self.old }
    {
        let start = self.start - word.len();
        self.bytes[start..self.start].copy_from_slice(word);
        self.start = start;
    }

    /// Puts a number in front, in decimal digits.
    pub(crate) fn put_number(&mut self, n: u64)
        requires { 20 + length self.old ≤ 256 }
        ensures text { self.new ≡ decimal n ++ self.old }
        ensures short { length self.new ≤ 20 + length self.old }
    {
        self.start = write_digits(n, &mut self.bytes, self.start);
    }
}
