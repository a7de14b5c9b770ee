//! Serial numbers of the elements of a list. A number stays with its element for good: an element that comes gets one
//! above all others, and one that goes takes its number with it, so that the numbers rise along the list.

ghost use Rattle.std.specs.Prelude.{◌≡◌, ◌<◌, ◌≤◌, ◌^◌, ℕ, length, slice_index_or, All, Some, IfSome, IfOk};
ghost use Rattle.ats_serials.specs.Serials.{AreRising};

use std::alloc::AllocError;

/// The place of a serial number among numbers that rise, found at once where no element before it ever went, else by
/// halving; `None` exactly where it does not stand there. There are at most 2^32 of them.
pub fn place_in(serials: &[u64], serial: u64) -> Option<u32>
    requires rising { AreRising serials.now }
    requires few { length serials.now ≤ 2 ^ 32 }
    ensures place { (n : ℕ) → n < length serials.now → slice_index_or serials.now n 0 ≡ serial → result ≡ Some n }
    ensures within { IfSome result (λ place. place < length serials.now) }
    ensures stands { IfSome result (λ place. slice_index_or serials.now place 0 ≡ serial) }
{
    if let Some(place) = place_named(serials, serial) {
        return Some(place);
    }
    match serials.binary_search(&serial) {
        Ok(place) => Some(place as u32),
        Err(_) => None,
    }
}

// The place that a serial number is itself, if it stands there: so it is while no element before it went.
fn place_named(serials: &[u64], serial: u64) -> Option<u32>
    requires { length serials.now ≤ 2 ^ 32 }
    ensures within { IfSome result (λ place. place < length serials.now) }
    ensures stands { IfSome result (λ place. slice_index_or serials.now place 0 ≡ serial) }
{
    if serial < serials.len() as u64 && serials[serial as usize] == serial {
        Some(serial as u32)
    } else {
        None
    }
}

/// A serial number above all of these, which rise. There is none above the greatest number of all, which no list of
/// pushes reaches; the answer is then `AllocError`.
pub fn serial_after(serials: &[u64]) -> Result<u64, AllocError>
    requires { AreRising serials.now }
    ensures { IfOk result (λ next. All (λ serial. serial < next) serials.now) }
{
    match serials.last() {
        Some(last) => last.checked_add(1).ok_or(AllocError),
        None => Ok(0),
    }
}
