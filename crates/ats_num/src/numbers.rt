//! Numbers in decimal.

ghost use Rattle.std.specs.Prelude.{◌≡◌, ◌≤◌, length, IsTrue};
ghost use Rattle.std.specs.List.{list_all};
ghost use Rattle.std.specs.Char.{is_ascii_digit};
ghost use Rattle.ats_num.specs.Digits.{digits_value};
ghost use Rattle.ats_num.specs.Number.{number_of, value_of};

/// The most digits of a number in a file.
pub const MAX_DIGITS: usize = 36;

// The most digits of which each number is below 2^64.
const SHORT_DIGITS: usize = 19;

/// The number that a text writes: 1 to 36 decimal digits, without sign and without a needless leading 0. `None` exactly
/// for any other text.
pub fn number(text: &[u8]) -> Option<u128>
    ensures { result ≡ number_of text.now }
{
    if text.is_empty() || text.len() > MAX_DIGITS {
        return None;
    }
    if text[0] == b'0' && text.len() != 1 {
        return None;
    }
    if text.len() <= SHORT_DIGITS {
        return short_number(text);
    }
    if !are_digits(text) {
        return None;
    }
    Some(value(text))
}

// The number that digits write, or `None` where a byte is none.
fn short_number(text: &[u8]) -> Option<u128>
    requires { length text.now ≤ SHORT_DIGITS }
    ensures { result ≡ digits_value text.now }
{
    let mut value: u64 = 0;
    for c in text {
        if !c.is_ascii_digit() {
            return None;
        }
        value = value * 10 + u64::from(*c - b'0');
    }
    Some(value.into())
}

fn are_digits(text: &[u8]) -> bool
    ensures { result ≡ list_all is_ascii_digit text.now }
{
    text.iter().all(|c| c.is_ascii_digit())
}

fn value(digits: &[u8]) -> u128
    requires few { length digits.now ≤ 36 }
    requires digits { IsTrue (list_all is_ascii_digit digits.now) }
    ensures { result ≡ value_of digits.now }
{
    let mut value = 0;
    for digit in digits {
        value = value * 10 + u128::from(*digit - b'0');
    }
    value
}
