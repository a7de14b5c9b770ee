//! The kinds of values that a key may hold.

ghost use Rattle.std.specs.Prelude.{◌≡◌, ◌≤◌, ◌<◌, ◌^◌, ◌&&◌, nat_le, length, slice_index, IfSome, Option};
ghost use Rattle.toml.specs.Data.{Data};
ghost use Rattle.toml.specs.View.{view};
ghost use Rattle.ats_network_table.specs.Kinds.{some_where, name_in, short_name_in, whole_in, digit_at, pair_at};
ghost use Rattle.ats_network_table.specs.Kinds.{joined_at, two_more};
ghost use Rattle.ats_network_table.specs.Kinds.{address_of, address_in};

use ats_num::Name;
use toml::Value;

/// The most bytes of a name behind which `-` and the number of a port make a name.
pub(crate) const MAX_SHORT_NAME: usize = 26;

/// The greatest whole number of a TOML text.
pub(crate) const MAX_WHOLE: u64 = 9_223_372_036_854_775_807;

/// What an item of an array can be.
pub(crate) trait FromValue: Drop {
    // What a value stands for, where it is of this kind.
    ghost kind: { Data → Option Self };

    /// What a value stands for, where it is of this kind.
    fn from_value(value: &Value) -> Option<Self>
        ensures { result ≡ kind (view value.now) };
}

impl FromValue for Name {
    ghost kind = { name_in };

    fn from_value(value: &Value) -> Option<Self> {
        name_in(value)
    }
}

impl FromValue for u64 {
    ghost use Rattle.ats_network_table.specs.Kinds.{long_in};

    ghost kind = { long_in };

    fn from_value(value: &Value) -> Option<Self> {
        whole_in(value, 0, MAX_WHOLE)
    }
}

/// The name that a value writes, where it is a string that is a name.
pub(crate) fn name_in(value: &Value) -> Option<Name>
    ensures { result ≡ name_in (view value.now) }
{
    match value.as_str() {
        Some(text) => Name::new(text.as_bytes()),
        None => None,
    }
}

/// The name that a value writes, where it is a string that is a name of at most 26 bytes.
pub(crate) fn short_name_in(value: &Value) -> Option<Name>
    ensures value { result ≡ short_name_in (view value.now) }
    ensures short { IfSome result (λ name. length name ≤ 26) }
{
    let name = name_in(value)?;
    if name.bytes().len() <= MAX_SHORT_NAME {
        Some(name)
    } else {
        None
    }
}

/// The number that a value is, where it is a whole number of this range.
pub(crate) fn whole_in(value: &Value, least: u64, most: u64) -> Option<u64>
    ensures value { result ≡ whole_in least most (view value.now) }
    ensures within { IfSome result (λ n. (least ≤ n) × (n ≤ most)) }
{
    let n = value.as_integer()?;
    if n < 0 {
        return None;
    }
    ranged(n as u64, least, most)
}

fn ranged(n: u64, least: u64, most: u64) -> Option<u64>
    ensures value { result ≡ some_where (nat_le least n && nat_le n most) n }
    ensures within { IfSome result (λ n. (least ≤ n) × (n ≤ most)) }
{
    if least <= n && n <= most {
        Some(n)
    } else {
        None
    }
}

/// The number that an address writes, where a value is a string of six pairs of hexadecimal digits
/// joined by `:`. The first pair stands highest.
pub(crate) fn address_in(value: &Value) -> Option<u64>
    ensures value { result ≡ address_in (view value.now) }
    ensures within { IfSome result (λ n. n < 2 ^ 48) }
{
    match value.as_str() {
        Some(text) => address_of(text.as_bytes()),
        None => None,
    }
}

fn address_of(text: &[u8]) -> Option<u64>
    ensures value { result ≡ address_of text.now }
    ensures within { IfSome result (λ n. n < 2 ^ 48) }
{
    let first = pair_at(text, 0)?;
    let high = two_more(text, 2, first)?;
    let fourth = joined_at(text, 8)?;
    let low = two_more(text, 11, fourth)?;
    if text.len() != 17 {
        return None;
    }
    Some(high * 16_777_216 + low)
}

// Two pairs behind a number, each behind a colon, as a number with the first given one highest.
fn two_more(text: &[u8], at: usize, high: u64) -> Option<u64>
    requires { (at ≤ 11) × (high < 256) }
    ensures value { result ≡ two_more text.now at high }
    ensures within { IfSome result (λ n. n < 16777216) }
{
    let middle = joined_at(text, at)?;
    let low = joined_at(text, at + 3)?;
    Some((high * 256 + middle) * 256 + low)
}

// A colon, and a pair of hexadecimal digits behind it.
fn joined_at(text: &[u8], at: usize) -> Option<u64>
    requires { at ≤ 14 }
    ensures value { result ≡ joined_at text.now at }
    ensures within { IfSome result (λ n. n < 256) }
{
    if byte_at(text, at) == b':' {
        pair_at(text, at + 1)
    } else {
        None
    }
}

// The number that a pair of hexadecimal digits writes.
fn pair_at(text: &[u8], at: usize) -> Option<u64>
    requires { at ≤ 15 }
    ensures value { result ≡ pair_at text.now at }
    ensures within { IfSome result (λ n. n < 256) }
{
    let high = digit_at(text, at)?;
    let low = digit_at(text, at + 1)?;
    Some(high * 16 + low)
}

fn digit_at(text: &[u8], at: usize) -> Option<u64>
    ensures value { result ≡ digit_at text.now at }
    ensures within { IfSome result (λ n. n < 16) }
{
    match char::from(byte_at(text, at)).to_digit(16) {
        Some(digit) => Some(u64::from(digit)),
        None => None,
    }
}

// The byte at a place, 0 past the end.
fn byte_at(text: &[u8], at: usize) -> u8
    ensures { result ≡ slice_index text.now at }
{
    match text.get(at) {
        Some(byte) => *byte,
        None => 0,
    }
}
