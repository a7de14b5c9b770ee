//! The values of a table by their keys.

ghost use Rattle.std.specs.Prelude.{◌≡◌, ◌<◌, length, slice_index_or, option_map, IfSome, None};
ghost use Rattle.std.specs.List.{position_from};
ghost use Rattle.std.specs.Str.{bytes_eq};
ghost use Rattle.toml.specs.Data.{get_member};
ghost use Rattle.toml.specs.View.{view, members_view, table_view};
ghost use Rattle.ats_network_table.specs.Words.{key_text};
ghost use Rattle.ats_network_table.specs.Walk.{is_known, has_unknown};
ghost use Rattle.ats_network_table.specs.Slots.{all_keys, slot_of, is_listed, stands_beside, has_other};

use crate::key::Key;
use std::marker::Model;
use toml::Value;

// The keys of all tables, the more frequent ones first.
const ALL_KEYS: [Key; 32] = [
    Key::Name,
    Key::Path,
    Key::Class,
    Key::RateBps,
    Key::BurstBits,
    Key::MinOctets,
    Key::MaxOctets,
    Key::From,
    Key::To,
    Key::DeadlineNs,
    Key::Address,
    Key::Vlan,
    Key::A,
    Key::B,
    Key::Mbps,
    Key::PropagationNs,
    Key::ProcessingNs,
    Key::ResidenceNs,
    Key::ProcessingMinNs,
    Key::ProcessingMaxNs,
    Key::Classes,
    Key::Paths,
    Key::ClockPpm,
    Key::ClockStepPs,
    Key::Format,
    Key::Station,
    Key::Bridge,
    Key::Link,
    Key::Stream,
    Key::LinkLocal,
    Key::Flow,
    Key::LinkLocalFlow,
];

/// The values of a table, each found at once by its key. Contracts see the table's entries.
#[derive(Drop)]
pub(crate) struct Slots<'a> {
    members: &'a toml::Table,
    values: [Option<&'a Value>; 32],
    // Whether each member's text is that of one of all keys.
    all_named: bool,
}

impl<'a> Model for Slots<'a> {
    ghost use Rattle.std.specs.Coded.{codes};
    ghost use Rattle.toml.specs.contracts.value.Value as value;
    ghost use Rattle.ats_network_table.specs.Slots.{Entries, AreSlots};

    ghost Value = { Entries };

    ghost coded = { Prim.hlevel (codes, value.the_row.coded) };

    ghost view = { λ s. s.members.now.entries };

    ghost invariant = { λ s. AreSlots s.members.now.entries s.values s.all_named };
}

impl<'a> Slots<'a> {
    /// The values of a table.
    pub(crate) fn of(members: &'a toml::Table) -> Self
        ensures { result ≡ members.now.entries }
    {
        let mut values = [None; 32];
        let mut all_named = true;
        'members: for (text, value) in members.iter() {
            match slot_named(text.as_str()) {
                Some(slot) => values[slot] = at(values.as_slice(), slot).or(Some(value)),
                None => all_named = false,
            }
        }
        Slots {
            members,
            values,
            all_named,
        }
    }

    /// Whether a key stands in the table that is none of these.
    pub(crate) fn has_unknown(&self, keys: &[Key]) -> bool
        ensures { result ≡ has_unknown keys.now (members_view self.now) }
    {
        // Where each text is a key's, the keys decide, and no text is compared again.
        if self.all_named {
            self.has_other(keys)
        } else {
            has_unknown(keys, self.members)
        }
    }

    // Whether one of all keys stands in the table and is none of these.
    fn has_other(&self, keys: &[Key]) -> bool
        ensures { result ≡ has_other keys.now (members_view self.now) }
    {
        ALL_KEYS.iter().any(|key| self.stands_beside(keys, *key))
    }

    // Whether a key stands in the table and is none of these.
    fn stands_beside(&self, keys: &[Key], key: Key) -> bool
        ensures { result ≡ stands_beside keys.now (members_view self.now) key }
    {
        self.value(key).is_some() && !is_listed(keys, slot_of(key))
    }

    /// What stands with a key.
    pub(crate) fn value(&self, key: Key) -> Option<&'a Value>
        ensures { option_map (λ v. view v.now) result ≡ get_member (key_text key) (members_view self.now) }
    {
        at(self.values.as_slice(), slot_of(key))
    }
}

// What stands at a place.
fn at<'a>(values: &[Option<&'a Value>], place: usize) -> Option<&'a Value>
    requires { place < length values.now }
    ensures { result ≡ slice_index_or values.now place None }
{
    values[place]
}

// The place of a key among all keys.
fn slot_of(key: Key) -> usize
    ensures place { result ≡ slot_of key }
    ensures within { result < 32 }
{
    key as usize
}

// The place of the key that is written so among all keys.
fn slot_named(text: &str) -> Option<usize>
    ensures place { result ≡ position_from (λ key. bytes_eq text.now (key_text key)) 0 all_keys }
    ensures within { IfSome result (λ i. i < 32) }
{
    ALL_KEYS
        .iter()
        .position(|key| text.as_bytes() == key.text().as_bytes())
}

// Whether one of these keys has this place.
fn is_listed(keys: &[Key], slot: usize) -> bool
    ensures { result ≡ is_listed keys.now slot }
{
    keys.iter().any(|key| slot_of(*key) == slot)
}

// Whether a member's text is that of none of these keys.
fn has_unknown(keys: &[Key], members: &toml::Table) -> bool
    ensures { result ≡ has_unknown keys.now (table_view members.now) }
{
    'members: for (text, _value) in members.iter() {
        if !is_known(keys, text.as_str()) {
            return true;
        }
    }
    false
}

fn is_known(keys: &[Key], text: &str) -> bool
    ensures { result ≡ is_known keys.now text.now }
{
    keys.iter()
        .any(|key| text.as_bytes() == key.text().as_bytes())
}
