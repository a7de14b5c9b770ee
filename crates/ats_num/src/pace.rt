//! How long frames take on their way into the node behind a port.

ghost use Rattle.std.specs.Prelude.{◌≡◌, ℕ, ◌+◌, ◌<◌, ◌≤◌, ◌^◌, ◌%◌, bit_xor};
ghost use Rattle.ats_num.specs.Pace.{WaitsWithin, drawn_wait, least_within, greatest_within, drawn_within};

/// The greatest spread of a port, in picoseconds.
pub const MAX_SPREAD: u64 = 1_000_000_000;

/// A lawful choice of the time that each frame takes to arrive behind a port. A port's arrivals
/// come from its earliest latency to its latency after the end of the transmission; the spread is
/// the difference of these two.
pub trait Pace: Copy {
    /// How many picoseconds a frame waits, by its number and the port's spread.
    ghost wait: { Self → ℕ → ℕ → ℕ };

    /// How many picoseconds after the earliest arrival the frame with number `frame` arrives behind
    /// a port with this spread in picoseconds, which is at most `MAX_SPREAD`.
    fn wait(&self, frame: u32, spread: u64) -> u64
        requires { spread ≤ MAX_SPREAD }
        ensures { result ≡ wait self.now frame spread };

    /// No frame waits longer than the spread.
    ghost within: { (pace : Self) → WaitsWithin (wait pace) };
}

/// Each frame arrives as early as it may.
#[derive(Clone, Copy, Debug, PartialEq, Eq)]
pub struct Least;

/// Each frame arrives as late as it may.
#[derive(Clone, Copy, Debug, PartialEq, Eq)]
pub struct Greatest;

/// A frame waits for its number, combined with this one bit by bit by exclusive or, modulo one more
/// than the spread.
#[derive(Clone, Copy, Debug, PartialEq, Eq)]
pub struct Drawn(pub u32);

impl Pace for Least {
    ghost wait = { λ _ frame spread. 0 };

    ghost within = { λ _. least_within };

    fn wait(&self, _frame: u32, _spread: u64) -> u64 {
        0
    }
}

impl Pace for Greatest {
    ghost wait = { λ _ frame spread. spread };

    ghost within = { λ _. greatest_within };

    fn wait(&self, _frame: u32, spread: u64) -> u64 {
        spread
    }
}

impl Pace for Drawn {
    ghost wait = { λ pace. drawn_wait pace.0 };

    ghost within = { λ pace. drawn_within pace.0 };

    fn wait(&self, frame: u32, spread: u64) -> u64 {
        u64::from(frame ^ self.0) % (spread + 1)
    }
}
