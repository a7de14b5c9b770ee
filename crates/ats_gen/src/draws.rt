//! The stated generator of numbers.

ghost use Rattle.std.specs.Prelude.{◌≡◌, ◌<◌, ◌^◌};
ghost use Rattle.ats_gen.specs.Draw.{drawn, next_state};

/// The factor from one state to the next.
pub(crate) const FACTOR: u64 = 6_364_136_223_846_793_005;

/// What is added to that.
pub(crate) const STEP: u64 = 1_442_695_040_888_963_407;

/// A linear congruential generator of 64 bits. The same seed gives the same numbers.
#[derive(Drop)]
pub(crate) struct Draws {
    /// Where it stands.
    pub(crate) state: u64,
}

impl Draws {
    /// One draw: the state goes on, and its upper 31 bits are drawn.
    pub(crate) fn draw(&mut self) -> u64
        ensures state { self.new.state ≡ next_state self.old.state }
        ensures value { result ≡ drawn self.new.state }
        ensures bounded { result < 2 ^ 31 }
    {
        let next = u128::from(self.state) * u128::from(FACTOR) + u128::from(STEP);
        self.state = (next % (1 << 64)) as u64;
        self.state / (1 << 33)
    }
}
