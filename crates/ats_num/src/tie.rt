//! The order among frames of one port, class and eligibility time.

ghost use Rattle.std.specs.Prelude.{◌≡◌, ◌≢◌, ℕ, ◌+◌, ◌-◌, ◌*◌, ◌<◌, ◌^◌, bit_xor};
ghost use Rattle.std.proofs.Common.{arith};
ghost use Rattle.ats_num.specs.Tie.{AreDistinct, Ascends, late_key, mixed_key, late_distinct, late_ascends};
ghost use Rattle.ats_num.specs.Tie.{mixed_distinct, mixed_ascends};

/// A lawful choice among frames that are eligible at the same time in one class: the frame with the
/// least key goes first. The standard leaves this choice open; two frames of one sender keep their
/// order.
pub trait Tie: Copy {
    /// The key of a frame of a sender.
    ghost key: { Self → ℕ → ℕ → ℕ };

    /// The key of the frame with number `frame` of the sender with number `sender`.
    fn key(&self, sender: u32, frame: u32) -> u64
        ensures { result ≡ key self.now sender frame };

    /// No two frames share a key, even of different senders.
    ghost distinct: { (tie : Self) → AreDistinct (key tie) };

    /// A sender's later frame has the greater key.
    ghost ascends: { (tie : Self) → Ascends (key tie) };
}

/// The frame that was released earlier goes first.
#[derive(Clone, Copy, Debug, PartialEq, Eq)]
pub struct Early;

/// The sender with the greater number goes first, and of one sender the earlier frame.
#[derive(Clone, Copy, Debug, PartialEq, Eq)]
pub struct Late;

/// The sender whose number, combined with this one bit by bit by exclusive or, is less goes first,
/// and of one sender the earlier frame.
#[derive(Clone, Copy, Debug, PartialEq, Eq)]
pub struct Mixed(pub u32);

impl Tie for Early {
    ghost key = { λ _ sender frame. frame };

    ghost distinct = { λ _ a b x y ha hb hx hy apart. apart };

    ghost ascends = { λ _ s x y hs hy before. before };

    fn key(&self, _sender: u32, frame: u32) -> u64 {
        u64::from(frame)
    }
}

impl Tie for Late {
    ghost key = { λ _. late_key };

    ghost distinct = { λ _. late_distinct };

    ghost ascends = { λ _. late_ascends };

    fn key(&self, sender: u32, frame: u32) -> u64 {
        (u64::from(u32::MAX - sender) << 32) + u64::from(frame)
    }
}

impl Tie for Mixed {
    ghost key = { λ tie. mixed_key tie.0 };

    ghost distinct = { λ tie. mixed_distinct tie.0 };

    ghost ascends = { λ tie. mixed_ascends tie.0 };

    fn key(&self, sender: u32, frame: u32) -> u64 {
        (u64::from(sender ^ self.0) << 32) + u64::from(frame)
    }
}
