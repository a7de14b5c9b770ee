//! The walk over one table of a network file.

ghost use Rattle.std.specs.Prelude.{◌≡◌, ◌≤◌, ◌<◌, ◌^◌, option_map, length, map, IfOk, IfErr, OnErr};
ghost use Rattle.std.specs.Prelude.{Some, None};
ghost use Rattle.std.specs.Option.{ForSome};
ghost use Rattle.toml.specs.Data.{get_member};
ghost use Rattle.toml.specs.View.{view, items_view, members_view, table_view};
ghost use Rattle.ats_network_table.specs.Words.{key_text};
ghost use Rattle.ats_network_table.specs.Walk.{has, is_due, is_missing, missing_key, formed, wrong_kind, at};
ghost use Rattle.ats_network_table.specs.Walk.{name_at, whole_at, short_at, long_at, format_at, path_at, paths_at};
ghost use Rattle.ats_network_table.specs.Walk.{classes_at, has_classes, has_paths, lists_classes, listeners_at};
ghost use Rattle.ats_network_table.specs.Walk.{may_branch, may_have_clock};
ghost use Rattle.ats_network_table.specs.Walk.{format_from, format_of, short_name_at, top_of};
ghost use Rattle.ats_network_table.specs.Walk.{IsIdentity, clock_at, identity_at, deadline_at};
ghost use Rattle.ats_num.specs.Failure.{or_fault, GivesSeen};
ghost use Rattle.ats_network_table.specs.Kinds.{address_in, all_in, list_in, names_in, paths_in};

use crate::fault::DocumentFault;
use crate::format::Format;
use crate::key::Key;
use crate::kinds::{FromValue, MAX_WHOLE, address_in, name_in, short_name_in, whole_in};
use crate::slots::Slots;
use crate::table::Table;
use ats_num::{Failure, Name};
use std::alloc::Global;
use toml::Value;

// The deadline of a stream that declares none, in nanoseconds.
const DEFAULT_DEADLINE_NS: u64 = 1_000_000_000;

/// One table of a file: the file's format, which table it is, its number among those of its array,
/// counted from 1 (0 for the top table), and what stands in it. Contracts see an `Entry`.
/// It is read by first asking whether it is `formed`, and then for one key after another.
#[derive(Drop)]
pub struct Section<'a> {
    format: Format,
    table: Table,
    number: u32,
    slots: Slots<'a>,
}

impl<'a> Section<'a> {
    ghost use Rattle.ats_network_table.specs.SectionView.{entry_of};

    /// The table with this number, of a file of this format; it takes no memory.
    pub fn new(format: Format, table: Table, number: u32, members: &'a toml::Table) -> Self
        ensures { entry_of result
            ≡ record { format = format; table = table; number = number; members = table_view members.now } }
    {
        Section {
            format,
            table,
            number,
            slots: Slots::of(members),
        }
    }

    /// The top table of a file, in the format that it gives, and in format 1 where it gives none; it takes no memory.
    pub fn top(members: &'a toml::Table) -> Self
        ensures { entry_of result ≡ top_of (table_view members.now) }
    {
        let slots = Slots::of(members);
        let format = format_given(&slots);
        Section {
            format,
            table: Table::Top,
            number: 0,
            slots,
        }
    }

    /// The file's format.
    pub fn format(&self) -> Format
        ensures { result ≡ (entry_of self.now).format }
    {
        self.format
    }

    // What stands with a key.
    fn value(&self, key: Key) -> Option<&'a Value>
        ensures { option_map (λ v. view v.now) result ≡ get_member (key_text key) (entry_of self.now).members }
    {
        self.slots.value(key)
    }

    /// Whether a key stands in the table.
    pub fn has(&self, key: Key) -> bool
        ensures { result ≡ has (entry_of self.now) key }
    {
        self.value(key).is_some()
    }

    // Whether the table may declare several listeners.
    fn may_branch(&self) -> bool
        ensures { result ≡ may_branch (entry_of self.now).format (entry_of self.now).table }
    {
        match (self.format, self.table) {
            (Format::Three, Table::Stream) => true,
            _ => false,
        }
    }

    /// Whether several paths stand in a table that may have them: in that of a stream, in format 3.
    pub fn has_paths(&self) -> bool
        ensures { result ≡ has_paths (entry_of self.now) }
    {
        self.may_branch() && self.has(Key::Paths)
    }

    // Whether classes stand in a table that may list them: in that of a stream.
    fn has_classes(&self) -> bool
        ensures { result ≡ has_classes (entry_of self.now) }
    {
        lists_classes(self.table) && self.has(Key::Classes)
    }

    // Whether a key of the table's list has to stand there.
    fn is_due(&self, key: Key) -> bool
        ensures { result ≡ is_due (entry_of self.now) key }
    {
        match key {
            Key::Station => false,
            Key::Bridge => false,
            Key::Link => false,
            Key::Stream => false,
            Key::LinkLocal => false,
            Key::Flow => false,
            Key::LinkLocalFlow => false,
            Key::Path => !(self.has(Key::From) || self.has(Key::To) || self.has_paths()),
            Key::Paths => false,
            Key::From => self.has(Key::To),
            Key::To => self.has(Key::From),
            Key::Class => !self.has_classes(),
            Key::Classes => false,
            Key::DeadlineNs => false,
            Key::ClockPpm => false,
            Key::ClockStepPs => false,
            Key::Address => self.has(Key::Vlan),
            Key::Vlan => self.has(Key::Address),
            _ => true,
        }
    }

    // Whether a key of the table's list has to stand there, and does not.
    fn is_missing(&self, key: Key) -> bool
        ensures { result ≡ is_missing (entry_of self.now) key }
    {
        self.is_due(key) && !self.has(key)
    }

    // The first missing key in the order of the table's list.
    fn missing_key(&self) -> Option<Key>
        ensures { result ≡ missing_key (entry_of self.now) }
    {
        for key in self.table.keys(self.format) {
            if self.is_missing(*key) {
                return Some(*key);
            }
        }
        None
    }

    /// That no key is missing and, then, that none is unknown.
    ///
    /// # Errors
    ///
    /// `Missing` with the first missing key in the order of `Table::keys`; else `Unknown`, where a key
    /// stands there that is none of these.
    pub fn formed(&self) -> Result<(), DocumentFault>
        ensures { result ≡ formed (entry_of self.now) }
    {
        if let Some(key) = self.missing_key() {
            return Err(DocumentFault::Missing {
                table: self.table,
                entry: self.number,
                key,
            });
        }
        if self.slots.has_unknown(self.table.keys(self.format)) {
            return Err(DocumentFault::Unknown {
                table: self.table,
                entry: self.number,
            });
        }
        Ok(())
    }

    /// The fault of a key whose value is of the wrong kind.
    pub fn wrong_kind(&self, key: Key) -> DocumentFault
        ensures { result ≡ wrong_kind (entry_of self.now) key }
    {
        DocumentFault::WrongKind {
            table: self.table,
            entry: self.number,
            key,
        }
    }

    /// What stands with a key, of whatever kind.
    ///
    /// # Errors
    ///
    /// `WrongKind` of the key, where nothing stands with it.
    pub fn at(&self, key: Key) -> Result<&'a Value, DocumentFault>
        ensures ok { IfOk result (λ v. get_member (key_text key) (entry_of self.now).members ≡ Some (view v.now)) }
        ensures err { IfErr result (λ e. e ≡ wrong_kind (entry_of self.now) key) }
        ensures none { OnErr result (get_member (key_text key) (entry_of self.now).members ≡ None) }
    {
        self.value(key).ok_or(self.wrong_kind(key))
    }

    /// The name that stands with a key.
    ///
    /// # Errors
    ///
    /// `WrongKind` of the key, where no string that is a name stands with it.
    pub fn name(&self, key: Key) -> Result<Name, DocumentFault>
        ensures { result ≡ name_at (entry_of self.now) key }
    {
        name_in(self.at(key)?).ok_or(self.wrong_kind(key))
    }

    /// The name of at most 26 bytes that stands with a key: with `-` and the number of a port behind it, it is a name.
    ///
    /// # Errors
    ///
    /// `WrongKind` of the key, where no string that is such a name stands with it.
    pub fn short_name(&self, key: Key) -> Result<Name, DocumentFault>
        ensures value { result ≡ short_name_at (entry_of self.now) key }
        ensures short { IfOk result (λ name. length name ≤ 26) }
    {
        short_name_in(self.at(key)?).ok_or(self.wrong_kind(key))
    }

    // The whole number of this range that stands with a key.
    fn whole(&self, key: Key, least: u64, most: u64) -> Result<u64, DocumentFault>
        ensures value { result ≡ whole_at (entry_of self.now) key least most }
        ensures within { IfOk result (λ n. (least ≤ n) × (n ≤ most)) }
    {
        whole_in(self.at(key)?, least, most).ok_or(self.wrong_kind(key))
    }

    /// The whole number of 32 bits that stands with a key.
    ///
    /// # Errors
    ///
    /// `WrongKind` of the key, where no whole number from 0 to 2^32 - 1 stands with it.
    pub fn short(&self, key: Key) -> Result<u32, DocumentFault>
        ensures { result ≡ short_at (entry_of self.now) key }
    {
        Ok(self.whole(key, 0, u64::from(u32::MAX))? as u32)
    }

    /// The whole number that stands with a key.
    ///
    /// # Errors
    ///
    /// `WrongKind` of the key, where no whole number from 0 to 2^63 - 1 stands with it.
    pub fn long(&self, key: Key) -> Result<u64, DocumentFault>
        ensures { result ≡ long_at (entry_of self.now) key }
    {
        self.whole(key, 0, MAX_WHOLE)
    }

    /// The format that the top table gives.
    ///
    /// # Errors
    ///
    /// `WrongKind` of the key `format`, where none of 1, 2 and 3 stands with it.
    pub fn format_given(&self) -> Result<Format, DocumentFault>
        ensures { result ≡ format_at (entry_of self.now) }
    {
        Ok(format_of(self.whole(Key::Format, 1, 3)?))
    }

    /// The names of a path, at least two, which has neither an end nor paths beside it.
    ///
    /// # Errors
    ///
    /// `WrongKind` of the key `path`, where `from`, `to` or `paths` stands beside it, or no array of two
    /// names or more stands with it.
    pub fn path(&self, alloc: Global) -> Result<Vec<Name>, Failure<DocumentFault>>
        ensures value { GivesSeen (λ names. names.items) result (path_at (entry_of self.now)) }
        ensures long { IfOk result (λ names. 2 ≤ length names.items) }
    {
        if self.has(Key::From) || self.has(Key::To) || self.has(Key::Paths) {
            return Err(Failure::Fault(self.wrong_kind(Key::Path)));
        }
        let names = self.list(alloc, Key::Path)?;
        if names.len() < 2 {
            return Err(Failure::Fault(self.wrong_kind(Key::Path)));
        }
        Ok(names)
    }

    /// The names of several paths, one at least, each of two at least, which have neither a path nor an end
    /// beside them.
    ///
    /// # Errors
    ///
    /// `WrongKind` of the key `paths`, where `path`, `from` or `to` stands beside it, or no array of one
    /// array or more, each of two names or more, stands with it.
    pub fn paths(&self, alloc: Global) -> Result<Vec<Vec<Name>>, Failure<DocumentFault>>
        ensures { GivesSeen (λ paths. map (λ names. names.items) paths.items) result (paths_at (entry_of self.now)) }
    {
        if self.has(Key::Path) || self.has(Key::From) || self.has(Key::To) {
            return Err(Failure::Fault(self.wrong_kind(Key::Paths)));
        }
        paths_in(alloc, self.at(Key::Paths)?, self.wrong_kind(Key::Paths))
    }

    /// The names of the listeners of a stream: one or, in format 3, an array of at least one.
    ///
    /// # Errors
    ///
    /// `WrongKind` of the key `to`, where neither stands with it.
    pub fn listeners(&self, alloc: Global) -> Result<Vec<Name>, Failure<DocumentFault>>
        ensures { GivesSeen (λ names. names.items) result (listeners_at (entry_of self.now)) }
    {
        let value = self.at(Key::To)?;
        if let Some(name) = name_in(value) {
            return Ok(vec![in alloc; name]?);
        }
        if !self.may_branch() {
            return Err(Failure::Fault(self.wrong_kind(Key::To)));
        }
        names_in(alloc, value, 1, self.wrong_kind(Key::To))
    }

    /// The classes of a stream, each 0 to 2^63 - 1: one, or a list in its place.
    ///
    /// # Errors
    ///
    /// `WrongKind` of the key `class`, where it stands there with anything but such a number; else of
    /// `classes`, where `class` stands beside it, or no array of such numbers stands with it.
    pub fn classes(&self, alloc: Global) -> Result<Vec<u64>, Failure<DocumentFault>>
        ensures { GivesSeen (λ classes. classes.items) result (classes_at (entry_of self.now)) }
    {
        if !self.has(Key::Class) {
            return self.list(alloc, Key::Classes);
        }
        let class = self.long(Key::Class)?;
        if self.has(Key::Classes) {
            return Err(Failure::Fault(self.wrong_kind(Key::Classes)));
        }
        Ok(vec![in alloc; class]?)
    }

    // The items of the array that stands with a key.
    fn list<T: FromValue>(&self, alloc: Global, key: Key) -> Result<Vec<T>, Failure<DocumentFault>>
        ensures { GivesSeen (λ items. items.items) result (at (entry_of self.now) key (list_in T.kind)) }
    {
        match self.at(key)?.as_array() {
            Some(values) => items_in(alloc, values.as_slice(), self.wrong_kind(key)),
            None => Err(Failure::Fault(self.wrong_kind(key))),
        }
    }

    /// Destination address, of 48 bits, and VLAN identifier, 1 to 4094, where an address stands
    /// there: null stream identification of IEEE Std 802.1CB.
    ///
    /// # Errors
    ///
    /// `WrongKind` of the key `address`, where it stands there with anything but six pairs of
    /// hexadecimal digits joined by `:`; else of `vlan`, where no such number stands with it.
    pub fn identity(&self) -> Result<Option<(u64, u16)>, DocumentFault>
        ensures value { result ≡ identity_at (entry_of self.now) }
        ensures within { IfOk result (λ identity. ForSome identity IsIdentity) }
    {
        if !self.has(Key::Address) {
            return Ok(None);
        }
        let address = self.address()?;
        let vlan = self.whole(Key::Vlan, 1, 4094)? as u16;
        Ok(Some((address, vlan)))
    }

    // The number of the address that stands there.
    fn address(&self) -> Result<u64, DocumentFault>
        ensures value { result ≡ at (entry_of self.now) Key.Address address_in }
        ensures within { IfOk result (λ n. n < 2 ^ 48) }
    {
        address_in(self.at(Key::Address)?).ok_or(self.wrong_kind(Key::Address))
    }

    /// The deadline in nanoseconds, 0 to 2^63 - 1; a second where none stands there.
    ///
    /// # Errors
    ///
    /// `WrongKind` of the key, where it stands there with anything but such a number.
    pub fn deadline_ns(&self) -> Result<u64, DocumentFault>
        ensures { result ≡ deadline_at (entry_of self.now) }
    {
        if self.has(Key::DeadlineNs) {
            self.long(Key::DeadlineNs)
        } else {
            Ok(DEFAULT_DEADLINE_NS)
        }
    }

    /// The number of a bridge's clock that stands with a key in format 3, of 32 bits; 0 where none stands there.
    ///
    /// # Errors
    ///
    /// `WrongKind` of the key, where it stands there with anything but a whole number from 0 to 2^32 - 1.
    pub fn clock(&self, key: Key) -> Result<u32, DocumentFault>
        ensures { result ≡ clock_at (entry_of self.now) key }
    {
        if may_have_clock(self.format) && self.has(key) {
            self.short(key)
        } else {
            Ok(0)
        }
    }
}

// The format that a top table gives; format 1 where it gives none.
fn format_given(top: &Slots) -> Format
    ensures { result ≡ format_from (get_member (key_text Key.Format) (members_view top.now)) }
{
    match top.value(Key::Format) {
        Some(value) => format_from(value),
        None => Format::One,
    }
}

// The format that a value gives; format 1 where it gives none.
fn format_from(value: &Value) -> Format
    ensures { result ≡ format_from (Some (view value.now)) }
{
    match whole_in(value, 1, 3) {
        Some(n) => format_of(n),
        None => Format::One,
    }
}

// The format with this number: 1, 2, or else 3.
fn format_of(n: u64) -> Format
    ensures { result ≡ format_of n }
{
    match n {
        1 => Format::One,
        2 => Format::Two,
        _ => Format::Three,
    }
}

// Whether a bridge may have a clock in files of a format.
fn may_have_clock(format: Format) -> bool
    ensures { result ≡ may_have_clock format }
{
    match format {
        Format::Three => true,
        _ => false,
    }
}

// Whether a table may list classes: that of a stream may.
fn lists_classes(table: Table) -> bool
    ensures { result ≡ lists_classes table }
{
    match table {
        Table::Stream => true,
        _ => false,
    }
}

// What the items of an array are, or this fault where one is of another kind.
fn items_in<T: FromValue>(
    alloc: Global,
    values: &[Value],
    fault: DocumentFault,
) -> Result<Vec<T>, Failure<DocumentFault>>
    ensures { GivesSeen (λ items. items.items) result (or_fault fault (all_in T.kind (items_view values.now))) }
{
    let mut items = Vec::with_capacity(alloc, values.len())?;
    for value in values {
        let item = match T::from_value(value) {
            Some(item) => item,
            None => return Err(Failure::Fault(fault)),
        };
        items.push(item)?;
    }
    Ok(items)
}

// The names of an array of so many at least, or this fault where a value is none.
fn names_in(
    alloc: Global,
    value: &Value,
    least: usize,
    fault: DocumentFault,
) -> Result<Vec<Name>, Failure<DocumentFault>>
    ensures { GivesSeen (λ names. names.items) result (or_fault fault (names_in least (view value.now))) }
{
    let Some(values) = value.as_array() else {
        return Err(Failure::Fault(fault));
    };
    let names: Vec<Name> = items_in(alloc, values.as_slice(), fault)?;
    if names.len() < least {
        return Err(Failure::Fault(fault));
    }
    Ok(names)
}

// The paths of an array of one at least, or this fault where a value is none.
fn paths_in(
    alloc: Global,
    value: &Value,
    fault: DocumentFault,
) -> Result<Vec<Vec<Name>>, Failure<DocumentFault>>
    ensures { GivesSeen (λ paths. map (λ names. names.items) paths.items) result
        (or_fault fault (paths_in (view value.now))) }
{
    let Some(values) = value.as_array() else {
        return Err(Failure::Fault(fault));
    };
    let paths = each_path(alloc, values.as_slice(), fault)?;
    if paths.is_empty() {
        return Err(Failure::Fault(fault));
    }
    Ok(paths)
}

// The paths that values are, or this fault where one is none.
fn each_path(
    alloc: Global,
    values: &[Value],
    fault: DocumentFault,
) -> Result<Vec<Vec<Name>>, Failure<DocumentFault>>
    ensures { GivesSeen (λ paths. map (λ names. names.items) paths.items) result
        (or_fault fault (all_in (names_in 2) (items_view values.now))) }
{
    let mut paths = Vec::with_capacity(alloc, values.len())?;
    for value in values {
        let names = names_in(alloc, value, 2, fault)?;
        paths.push(names)?;
    }
    Ok(paths)
}
