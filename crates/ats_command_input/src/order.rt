//! The orders that a run may keep.

ghost use Rattle.std.specs.Prelude.{◌≡◌};
ghost use Rattle.ats_command_input.specs.Order.{mixed_named, order_named};

use ats_num::number;

/// Which of the lawful runs of a schedule is meant: how ports break ties, and how long frames take to arrive.
#[derive(Clone, Copy, Debug, PartialEq, Eq)]
pub enum Order {
    /// Of equals the frame with the lesser number goes first; each frame arrives as early as it may.
    Early,
    /// Of equals the sender with the greater number goes first; each frame arrives as late as it may.
    Late,
    /// Of equals the sender goes first whose number, combined with this one bit by bit by exclusive or, is less; each
    /// frame takes a time drawn by its number and this one.
    Mixed(u32),
}

/// The order that a word names: `early`, `late` or `mixed:N`, N a number up to 4294967295. `None` exactly for any other
/// word.
pub fn order_named(word: &str) -> Option<Order>
    ensures { result ≡ order_named word.now }
{
    if word == "early" {
        Some(Order::Early)
    } else if word == "late" {
        Some(Order::Late)
    } else {
        mixed_named(word.as_bytes())
    }
}

// The order that a word `mixed:N` names.
fn mixed_named(word: &[u8]) -> Option<Order>
    ensures { result ≡ mixed_named word.now }
{
    let digits = word.strip_prefix(b"mixed:")?;
    let n = number(digits)?;
    if n > u128::from(u32::MAX) {
        return None;
    }
    Some(Order::Mixed(n as u32))
}
