//! Division that rounds up.

ghost use Rattle.std.specs.Prelude.{◌<◌};
ghost use Rattle.ats_num.specs.Division.{IsCeiling};

/// The least whole `q` with `q * d >= n`.
pub fn ceil_div(n: u128, d: u128) -> u128
    requires { 0 < d }
    ensures { IsCeiling n d result }
{
    let whole = n / d;
    if n % d == 0 { whole } else { whole + 1 }
}
