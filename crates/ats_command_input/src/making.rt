//! The words that say which traffic is made: a seed, and how many frames.

ghost use Rattle.std.specs.Prelude.{◌≡◌, ◌≤◌, option_map};
ghost use Rattle.ats_trace.specs.declared.run.TheConstants.{MAX_FRAMES};
ghost use Rattle.ats_command_input.specs.Making.{count_named, seed_named};

use ats_num::number;
use ats_trace::run::MAX_FRAMES;

/// The greatest seed.
pub const MAX_SEED: u128 = 18_446_744_073_709_551_615;

/// A number of frames that a run may have.
#[derive(Clone, Copy)]
pub struct FrameCount {
    pub frames: u32,
    ghost few: { frames ≤ MAX_FRAMES },
}

/// The seed that a word names: a number up to 18446744073709551615. `None` exactly for any other word.
pub fn seed_named(word: &str) -> Option<u64>
    ensures { result ≡ seed_named word.now }
{
    let n = number(word.as_bytes())?;
    if n > MAX_SEED {
        return None;
    }
    Some(n as u64)
}

/// The number of frames that a word names: 1 to 200000. `None` exactly for any other word.
pub fn count_named(word: &str) -> Option<FrameCount>
    ensures { option_map (λ count. count.frames) result ≡ count_named word.now }
{
    let n = number(word.as_bytes())?;
    if n < 1 || n > MAX_FRAMES as u128 {
        return None;
    }
    Some(FrameCount { frames: n as u32 })
}
