//! The arrays of a network file.

ghost use Rattle.std.specs.Prelude.{◌≡◌, ◌≤◌, ◌<◌, ◌+◌, ◌*◌, ◌^◌, length, IfOk, IfErr};
ghost use Rattle.ats_num.specs.Failure.{GivesSeen};
ghost use Rattle.ats_network_toml.specs.Reading.{entries_from, entries_in, entries_within, arrays_in};
ghost use Rattle.ats_network_toml.specs.Views.{tables_of};

use crate::document::MAX_SENDERS;
use crate::entries::FromSection;
use crate::tables::Tables;
use ats_network_table::{DocumentFault, Format, Key, Section, Table};
use ats_num::Failure;
use std::alloc::Global;

// The most entries that are counted by 32 bits: so many tables are in no memory, and no fault names one beyond.
const MAX_COUNTED: usize = 2_147_483_647;

/// The entries of an array of a table, or the first fault in them: more than so many, or the first
/// fault of the first entry with one.
pub(crate) fn read_entries<E: FromSection>(
    alloc: Global,
    format: Format,
    table: Table,
    most: usize,
    tables: &Tables,
) -> Result<Vec<E>, Failure<DocumentFault>>
    requires { most < 2 ^ 31 }
    ensures value { GivesSeen (λ es. es.items) result (entries_in E.reads format table most (tables_of tables.now)) }
    ensures few { IfOk result (λ es. length es.items ≤ most) }
{
    if tables.len() > most {
        return Err(Failure::Fault(DocumentFault::Limit { table }));
    }
    entries_of(alloc, format, table, tables)
}

/// The entries of an array whose tables stand for a sender at each port of so many links, where so many senders stand
/// alone, or the first fault in them: they are more than 4096 together, or the first fault of the first entry with one.
pub(crate) fn read_for_ports<E: FromSection>(
    alloc: Global,
    format: Format,
    table: Table,
    alone: usize,
    links: usize,
    tables: &Tables,
) -> Result<Vec<E>, Failure<DocumentFault>>
    requires alone { alone ≤ 4096 }
    requires links { links ≤ 2048 }
    ensures value { GivesSeen (λ es. es.items) result (entries_within E.reads format table 4096
        (alone + length (tables_of tables.now) * (2 * links)) (tables_of tables.now)) }
    ensures counted { IfOk result (λ es. length es.items < 2 ^ 31) }
    ensures few { IfOk result (λ es. alone + length es.items * (2 * links) ≤ 4096) }
{
    if tables.len() > MAX_COUNTED {
        return Err(Failure::NoMemory);
    }
    if senders_for(alone, tables.len(), links) > MAX_SENDERS {
        return Err(Failure::Fault(DocumentFault::Limit { table }));
    }
    entries_of(alloc, format, table, tables)
}

// How many senders stand alone, and by tables for each port of so many links.
fn senders_for(alone: usize, tables: usize, links: usize) -> usize
    requires alone { alone ≤ 4096 }
    requires tables { tables < 2 ^ 31 }
    requires links { links ≤ 2048 }
    ensures { result ≡ alone + tables * (2 * links) }
{
    alone + tables * (2 * links)
}

// The entries of an array, or the first fault of the first entry with one.
fn entries_of<E: FromSection>(
    alloc: Global,
    format: Format,
    table: Table,
    tables: &Tables,
) -> Result<Vec<E>, Failure<DocumentFault>>
    requires { length (tables_of tables.now) < 2 ^ 31 }
    ensures value { GivesSeen (λ es. es.items) result (entries_from E.reads format table 1 (tables_of tables.now)) }
    ensures many { IfOk result (λ es. length es.items ≡ length (tables_of tables.now)) }
{
    let mut entries = Vec::with_capacity(alloc, tables.len())?;
    for place in 0..tables.len() {
        let section = Section::new(format, table, place as u32 + 1, tables.at(place));
        let entry = E::read(alloc, &section)?;
        entries.push(entry)?;
    }
    Ok(entries)
}

/// The format and the arrays of the top table.
#[derive(Drop)]
pub(crate) struct Arrays<'a> {
    pub format: Format,
    pub stations: Tables<'a>,
    pub bridges: Tables<'a>,
    pub links: Tables<'a>,
    pub streams: Tables<'a>,
    pub link_locals: Tables<'a>,
    pub flows: Tables<'a>,
    pub link_local_flows: Tables<'a>,
}

impl<'a> Arrays<'a> {
    ghost use Rattle.ats_network_table.specs.SectionView.{entry_of};
    ghost use Rattle.ats_network_toml.specs.ArraysView.{arrays_view};

    /// The format and the arrays of a top table, or its first fault.
    pub(crate) fn read(top: &Section<'a>) -> Result<Self, DocumentFault>
        ensures ok { IfOk result (λ arrays. arrays_in (entry_of top.now) ≡ Ok (arrays_view arrays)) }
        ensures err { IfErr result (λ e. arrays_in (entry_of top.now) ≡ Err e) }
    {
        top.formed()?;
        let format = top.format_given()?;
        let stations = Tables::read(top, Key::Station)?;
        let bridges = Tables::read(top, Key::Bridge)?;
        let links = Tables::read(top, Key::Link)?;
        let streams = Tables::read(top, Key::Stream)?;
        let link_locals = Tables::read(top, Key::LinkLocal)?;
        let flows = Tables::read(top, Key::Flow)?;
        let link_local_flows = Tables::read(top, Key::LinkLocalFlow)?;
        Ok(Arrays {
            format,
            stations,
            bridges,
            links,
            streams,
            link_locals,
            flows,
            link_local_flows,
        })
    }
}
