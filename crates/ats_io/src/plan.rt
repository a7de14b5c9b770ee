//! What the implementations over memory share.

ghost use Rattle.std.specs.Prelude.{◌≡◌, ◌<◌, ◌≤◌, length, drop, min};
ghost use Rattle.ats_io.specs.Outside.{IsPieceAt};
ghost use Rattle.ats_io.specs.Memory.{next_count, is_planned};

// One more, in a counter that stays at its last value.
pub(crate) fn next_count(count: u64) -> u64
    ensures { result ≡ next_count count }
{
    count.saturating_add(1)
}

// Whether the call of this number is to fail.
pub(crate) fn is_planned(fails: &[u32], call: u64) -> bool
    ensures { result ≡ is_planned fails.now call }
{
    fails.iter().any(|number| u64::from(*number) == call)
}

// Puts the bytes from place `at` into the front of the buffer, as many as are there and fit, and gives their number.
pub(crate) fn put_piece(bytes: &[u8], at: u64, buf: &mut [u8]) -> usize
    requires { 0 < length buf.old }
    ensures piece { IsPieceAt bytes.now at result buf.new }
    ensures count { result ≡ min (length buf.new) (length (drop at bytes.now)) }
{
    if at >= bytes.len() as u64 {
        return 0;
    }
    let rest = &bytes[at as usize..];
    let count = rest.len().min(buf.len());
    buf[..count].copy_from_slice(&rest[..count]);
    count
}
