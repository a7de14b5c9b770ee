//! Arrays of tables.

ghost use Rattle.std.specs.Prelude.{◌≡◌, ◌<◌, [], length, slice_index_or, option_map, IsTrue, IsSome, Some};
ghost use Rattle.std.specs.Prelude.{IfOk, IfErr};
ghost use Rattle.toml.specs.Data.{as_table, no_members};
ghost use Rattle.toml.specs.View.{view, items_view, table_view};
ghost use Rattle.ats_network_table.specs.Kinds.{all_in};
ghost use Rattle.ats_network_table.specs.SectionView.{entry_of};
ghost use Rattle.ats_network_toml.specs.Reading.{tables_in, tables_at};
ghost use Rattle.ats_network_toml.specs.Views.{are_tables, tables_of};

use ats_network_table::{DocumentFault, Key, Section};
use std::marker::Model;
use toml::Value;

/// An array of tables. Contracts see the values, each of which is a table.
#[derive(Drop)]
pub(crate) struct Tables<'a> {
    values: &'a [Value],
}

impl<'a> Model for Tables<'a> {
    ghost use Rattle.std.specs.Prelude.{IsTrue};
    ghost use Rattle.std.specs.Coded.{codes};
    ghost use Rattle.toml.specs.contracts.value.Value as value;
    ghost use Rattle.ats_network_toml.specs.Views.{Values, are_tables};

    ghost Value = { Values };

    ghost coded = { Prim.hlevel (codes, value.the_row.coded) };

    ghost view = { λ t. t.values.now };

    ghost invariant = { λ t. IsTrue (are_tables t.values.now) };
}

impl<'a> Tables<'a> {
    /// The tables of the array that stands with a key; none where nothing stands there.
    pub(crate) fn read(section: &Section<'a>, key: Key) -> Result<Self, DocumentFault>
        ensures ok { IfOk result (λ tables. tables_at (entry_of section.now) key ≡ Ok (tables_of tables)) }
        ensures err { IfErr result (λ e. tables_at (entry_of section.now) key ≡ Err e) }
    {
        if !section.has(key) {
            return Ok(Tables::none());
        }
        tables_in(section.at(key)?).ok_or(section.wrong_kind(key))
    }

    // The tables that these values are, where each is one.
    fn of(values: &'a [Value]) -> Option<Self>
        ensures { option_map tables_of result ≡ all_in as_table (items_view values.now) }
    {
        if are_tables(values) {
            Some(Tables { values })
        } else {
            None
        }
    }

    // No tables.
    fn none() -> Self
        ensures { tables_of result ≡ [] }
    {
        Tables { values: &[] }
    }

    /// How many tables there are.
    pub(crate) fn len(&self) -> usize
        ensures { result ≡ length (tables_of self.now) }
    {
        self.values.len()
    }

    /// The table at a place.
    pub(crate) fn at(&self, place: usize) -> &'a toml::Table
        requires { place < length (tables_of self.now) }
        ensures { table_view result.now ≡ slice_index_or (tables_of self.now) place no_members }
    {
        table_at(self.values, place)
    }
}

// The tables that a value is, where it is an array of tables.
fn tables_in(value: &Value) -> Option<Tables<'_>>
    ensures { option_map tables_of result ≡ tables_in (view value.now) }
{
    match value.as_array() {
        Some(values) => Tables::of(values.as_slice()),
        None => None,
    }
}

// The table at a place of values that are tables.
fn table_at(values: &[Value], place: usize) -> &toml::Table
    requires tables { IsTrue (are_tables values.now) }
    requires within { place < length values.now }
    ensures { table_view result.now ≡ slice_index_or (tables_of values.now) place no_members }
{
    table_in(&values[place])
}

// The table that a value is.
fn table_in(value: &Value) -> &toml::Table
    requires { IsSome (as_table (view value.now)) }
    ensures { as_table (view value.now) ≡ Some (table_view result.now) }
{
    value.as_table().unwrap()
}

#[tactic(auto, using(crate::proofs::Joined::all_in_drop))]
fn are_tables(values: &[Value]) -> bool
    ensures { result ≡ are_tables values.now }
{
    for value in values {
        if !value.is_table() {
            return false;
        }
    }
    true
}
