//! Names of nodes, streams and flows.

ghost use Rattle.std.specs.Prelude.{◌≡◌, ◌↔◌, ℕ, List, IsTrue, IsSome, IfSome, length, ◌≤◌, ◌<◌, ◌*◌, drop};
ghost use Rattle.std.proofs.Common.{rules};
ghost use Rattle.std.specs.Cmp.{partial_order_from_own_ties};
ghost use Rattle.std.specs.Cmp.Rules.{comparing};
ghost use Rattle.std.specs.Cmp.Lexicographic.{slice_cmp, pointwise};
ghost use Rattle.std.specs.Ordering.{nat_cmp, as_partial_cmp};
ghost use Rattle.std.specs.Prelude.{nat_eq};
ghost use Rattle.std.specs.List.{list_all};
ghost use Rattle.std.specs.Int.{w64, from_be_bytes};
ghost use Rattle.ats_num.specs.Name.{name_of, is_name, is_name_byte, padded};

use std::cmp::Ordering;
use std::fmt;
use std::marker::Model;

/// The most bytes of a name.
pub const MAX_BYTES: usize = 32;

/// A name: 1 to 32 ASCII letters, digits, `_` or `-`. It is copied like a number, and in contracts
/// it is the list of its bytes.
#[derive(Clone, Copy)]
pub struct Name {
    text: [u8; 32],
    size: usize,
}

impl Model for Name {
    ghost use Rattle.std.specs.Prelude.{ℕ, List, take, length};
    ghost use Rattle.std.specs.Coded.{coded_ℕ, coded_list};

    ghost Value = { List ℕ };

    ghost coded = { coded_list coded_ℕ };

    ghost use Rattle.ats_num.specs.Name.{IsPadded, padded};
    ghost use Rattle.ats_num.specs.NameInside.{padded-take};

    ghost view = { λ n. take n.size n.text };

    ghost invariant = { λ n. IsPadded n.text n.size };

    ghost inverse = { λ name. record { text = padded name; size = length name } };

    ghost inverse_ok = { λ n h. padded-take n h };
}

impl Name {
    /// The name that a text writes, or `None` exactly where it writes none.
    pub fn new(text: &[u8]) -> Option<Self>
        ensures { result ≡ name_of text.now }
    {
        if !is_name(text) {
            return None;
        }
        Some(Name {
            text: padded(text),
            size: text.len(),
        })
    }

    /// The name's bytes.
    pub fn bytes(&self) -> &[u8]
        ensures value { result.now ≡ self.now }
        ensures valid { IsTrue (is_name self.now) }
    {
        &self.text[..self.size]
    }
}

fn is_name_byte(c: u8) -> bool
    ensures { result ≡ is_name_byte c }
{
    c.is_ascii_alphanumeric() || c == b'_' || c == b'-'
}

fn are_name_bytes(text: &[u8]) -> bool
    ensures { result ≡ list_all is_name_byte text.now }
{
    text.iter().all(|c| is_name_byte(*c))
}

fn is_name(text: &[u8]) -> bool
    ensures { result ≡ is_name text.now }
{
    if text.is_empty() || text.len() > MAX_BYTES {
        return false;
    }
    are_name_bytes(text)
}

fn padded(text: &[u8]) -> [u8; 32]
    requires { length text.now ≤ 32 }
    ensures { result ≡ padded text.now }
{
    let mut array = [0; 32];
    array[..text.len()].copy_from_slice(text);
    array
}

// The order of two arrays by their bytes. Eight bytes are compared at a time, as one number.
fn order(text: &[u8; 32], other: &[u8; 32]) -> Ordering
    ensures { result ≡ slice_cmp nat_cmp text.now other.now }
{
    for place in 0..4 {
        let mine = word(text, place);
        let theirs = word(other, place);
        if mine != theirs {
            return mine.cmp(&theirs);
        }
    }
    Ordering::Equal
}

// Eight bytes of an array as a number, the first of them the most significant.
fn word(text: &[u8; 32], place: usize) -> u64
    requires { place < 4 }
    ensures { result ≡ from_be_bytes w64 (drop (8 * place) text.now) }
{
    let at = 8 * place;
    u64::from_be_bytes([
        text[at],
        text[at + 1],
        text[at + 2],
        text[at + 3],
        text[at + 4],
        text[at + 5],
        text[at + 6],
        text[at + 7],
    ])
}

impl PartialEq for Name {
    ghost eq = { pointwise nat_eq };

    ghost laws = { Prim.search (comparing, rules) };

    fn eq(&self, other: &Name) -> bool {
        order(&self.text, &other.text).is_eq()
    }
}

impl Eq for Name {
    ghost laws = { Prim.search (comparing, rules) };
}

impl Ord for Name {
    ghost cmp = { slice_cmp nat_cmp };

    ghost total = { Prim.search (comparing, rules) };

    ghost matches_partial_cmp = { Prim.search (comparing, rules) };

    ghost matches_eq = { Prim.search (comparing, rules) };

    fn cmp(&self, other: &Name) -> Ordering {
        order(&self.text, &other.text)
    }
}

impl PartialOrd for Name {
    ghost partial_cmp = { as_partial_cmp (slice_cmp nat_cmp) };

    ghost laws = { partial_order_from_own_ties (Prim.search (comparing, rules)) (Prim.search (comparing, rules)) };

    fn partial_cmp(&self, other: &Name) -> Option<Ordering> {
        Some(self.cmp(other))
    }
}

impl fmt::Debug for Name {
    fn fmt<W: fmt::Write>(&self, f: &mut fmt::Formatter<W>) -> fmt::Result {
        for c in self.bytes() {
            f.write_char(char::from(*c))?;
        }
        Ok(())
    }
}
