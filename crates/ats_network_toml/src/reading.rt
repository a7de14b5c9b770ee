//! Network files as bytes.

ghost use Rattle.std.specs.Prelude.{◌≡◌};
ghost use Rattle.toml.specs.View.{table_view};
ghost use Rattle.ats_num.specs.Failure.{or_fault, Gives, GivesSeen};
ghost use Rattle.ats_network_toml.specs.ArraysView.{arrays_view};
ghost use Rattle.ats_network_toml.specs.Reading.{tree_of, document_in, document_of, arrays_read};

use crate::arrays::{Arrays, read_entries, read_for_ports};
use crate::document::{Document, MAX_FLOWS, MAX_LINKS, MAX_NODES, MAX_STREAMS};
use ats_network_table::{DocumentFault, Section, Table};
use ats_num::Failure;
use std::alloc::Global;

/// What a text declares, or the first fault of its form.
///
/// # Errors
///
/// `NotToml` exactly where the bytes are no UTF-8 or no TOML document. Else the first fault of this
/// walk: the top table, then the stations, the bridges, the links, the streams, those for each port,
/// the flows and those for each port, each array in its order. At a table: the first missing key in
/// the order of `Table::keys`; then `Unknown`, where a key stands there that is none of these; then
/// the first key of the wrong kind in that order. On reaching an array with more entries than its
/// limit: `Limit`, with the bridges counted on from the stations, and entries for each port by the
/// ports that the links have, on from the streams or flows.
pub fn read_document(alloc: Global, bytes: &[u8]) -> Result<Document, Failure<DocumentFault>>
    ensures { Gives result (document_of bytes.now) }
{
    let tree = tree_of(alloc, bytes)?;
    let arrays = Arrays::read(&Section::top(&tree))?;
    arrays_read(alloc, &arrays)
}

// The document that a text is, by the grammar of TOML.
fn tree_of(alloc: Global, bytes: &[u8]) -> Result<toml::Table, Failure<DocumentFault>>
    ensures { GivesSeen table_view result (or_fault DocumentFault.NotToml (tree_of bytes.now)) }
{
    let text = match std::str::from_utf8(bytes) {
        Ok(text) => text,
        Err(_) => return Err(Failure::Fault(DocumentFault::NotToml)),
    };
    match toml::table_from_str(alloc, text) {
        Ok(tree) => Ok(tree),
        Err(e) => {
            if e.is_memory() {
                Err(Failure::NoMemory)
            } else {
                Err(Failure::Fault(DocumentFault::NotToml))
            }
        }
    }
}

// The format and the entries of all arrays.
fn arrays_read(alloc: Global, arrays: &Arrays) -> Result<Document, Failure<DocumentFault>>
    ensures { Gives result (arrays_read (arrays_view arrays.now)) }
{
    let station_list = read_entries(
        alloc,
        arrays.format,
        Table::Station,
        MAX_NODES,
        &arrays.stations,
    )?;
    let places = MAX_NODES - station_list.len();
    let bridge_list = read_entries(alloc, arrays.format, Table::Bridge, places, &arrays.bridges)?;
    let link_list = read_entries(alloc, arrays.format, Table::Link, MAX_LINKS, &arrays.links)?;
    let stream_list = read_entries(
        alloc,
        arrays.format,
        Table::Stream,
        MAX_STREAMS,
        &arrays.streams,
    )?;
    let link_local_list = read_for_ports(
        alloc,
        arrays.format,
        Table::LinkLocal,
        stream_list.len(),
        link_list.len(),
        &arrays.link_locals,
    )?;
    let flow_list = read_entries(alloc, arrays.format, Table::Flow, MAX_FLOWS, &arrays.flows)?;
    let link_local_flow_list = read_for_ports(
        alloc,
        arrays.format,
        Table::LinkLocalFlow,
        flow_list.len(),
        link_list.len(),
        &arrays.link_local_flows,
    )?;
    Ok(Document {
        version: arrays.format,
        station_list,
        bridge_list,
        link_list,
        stream_list,
        link_local_list,
        flow_list,
        link_local_flow_list,
    })
}
