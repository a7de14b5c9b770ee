//! The first bytes of a header or of a record.

ghost use Rattle.std.specs.Prelude.{◌≡◌, ◌++◌, ◌≤◌, [], length, take};

use std::marker::Model;

// The most bytes that are kept.
const MOST: usize = 32;

/// The first 32 bytes of what came, or all where they are fewer. Contracts see them as a list.
#[derive(Drop)]
pub(crate) struct Front {
    bytes: [u8; 32],
    count: usize,
}

impl Model for Front {
    ghost use Rattle.std.specs.Prelude.{ℕ, List, ◌≤◌, take};

    ghost Value = { List ℕ };

    ghost view = { λ f. take f.count f.bytes };

    ghost invariant = { λ f. f.count ≤ 32 };
}

impl Front {
    // No byte.
    pub(crate) fn new() -> Self
        ensures { result ≡ [] }
    {
        Front {
            bytes: [0; 32],
            count: 0,
        }
    }

    pub(crate) fn bytes(&self) -> &[u8]
        ensures value { result.now ≡ self.now }
        ensures most { length self.now ≤ 32 }
    {
        &self.bytes[..self.count]
    }

    pub(crate) fn len(&self) -> usize
        ensures { result ≡ length self.now }
    {
        self.count
    }

    // Keeps of these further bytes as many as there is room for.
    pub(crate) fn extend(&mut self, part: &[u8])
        ensures { self.new ≡ take 32 (self.old ++ part.now) }
    {
        let room = part.len().min(MOST - self.count);
        self.bytes[self.count..self.count + room].copy_from_slice(&part[..room]);
        self.count += room;
    }

    pub(crate) fn clear(&mut self)
        ensures { self.new ≡ [] }
    {
        self.count = 0;
    }
}
