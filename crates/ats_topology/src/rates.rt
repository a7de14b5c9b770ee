//! The rates of links.

ghost use Rattle.std.specs.Prelude.{◌≡◌, IfSome};
ghost use Rattle.ats_topology.specs.Rates.{ps_per_bit_of, IsPsPerBit};

/// The picoseconds that one bit takes on a link of so many megabits per second. `None` exactly
/// where the rate is none of 10, 100, 1000, 2500, 5000, 10000, 25000, 40000, 50000 and 100000 (IEEE
/// Std 802.3).
pub fn ps_per_bit(mbps: u32) -> Option<u32>
    ensures value { result ≡ ps_per_bit_of mbps }
    ensures tabled { IfSome result IsPsPerBit }
{
    match mbps {
        10 => Some(100_000),
        100 => Some(10_000),
        1000 => Some(1000),
        2500 => Some(400),
        5000 => Some(200),
        10_000 => Some(100),
        25_000 => Some(40),
        40_000 => Some(25),
        50_000 => Some(20),
        100_000 => Some(10),
        _ => None,
    }
}
