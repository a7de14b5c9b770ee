//! The tie by which one sender goes last.

ghost use Rattle.std.specs.Prelude.{◌≡◌, ℕ};
ghost use Rattle.ats_witness.specs.Last.{last_key, last_distinct, last_ascends};

use ats_num::Tie;

/// The frames of the sender with this number go last, and else the frame that was released earlier goes first.
#[derive(Clone, Copy, Debug, PartialEq, Eq)]
pub struct Last(pub u32);

impl Tie for Last {
    ghost key = { λ tie. last_key tie.0 };

    ghost distinct = { λ tie. last_distinct tie.0 };

    ghost ascends = { λ tie. last_ascends tie.0 };

    fn key(&self, sender: u32, frame: u32) -> u64 {
        if sender == self.0 {
            (1 << 32) + u64::from(frame)
        } else {
            u64::from(frame)
        }
    }
}
