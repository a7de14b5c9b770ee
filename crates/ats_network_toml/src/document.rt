//! What a network file declares.

ghost use Rattle.std.specs.Prelude.{◌≡◌};

use crate::entries::{
    BridgeEntry, FlowEntry, LinkEntry, LinkLocalEntry, LinkLocalFlowEntry, StationEntry,
    StreamEntry,
};
use ats_network_table::Format;
use std::marker::Model;

/// The most stations and bridges of a network file, together.
pub const MAX_NODES: usize = 1024;

/// The most links of a network file.
pub const MAX_LINKS: usize = 2048;

/// The most streams of a network file.
pub const MAX_STREAMS: usize = 4096;

/// The most flows of a network file, without those that the tables for each port stand for.
pub const MAX_FLOWS: usize = 1024;

/// The most streams, and the most flows, of a network file, with those that the tables for each port stand for.
pub const MAX_SENDERS: usize = 4096;

/// What a network file declares: its format, and the entries of its arrays, each in file order and within its
/// limit. Contracts see the format and the lists.
#[derive(Drop)]
pub struct Document {
    pub(crate) version: Format,
    pub(crate) station_list: Vec<StationEntry>,
    pub(crate) bridge_list: Vec<BridgeEntry>,
    pub(crate) link_list: Vec<LinkEntry>,
    pub(crate) stream_list: Vec<StreamEntry>,
    pub(crate) link_local_list: Vec<LinkLocalEntry>,
    pub(crate) flow_list: Vec<FlowEntry>,
    pub(crate) link_local_flow_list: Vec<LinkLocalFlowEntry>,
}

impl Model for Document {
    ghost use Rattle.ats_network_toml.specs.Document.{DeclaredDocument, IsDocument};

    ghost Value = { DeclaredDocument };

    ghost view = { λ d. record {
      format = d.version;
      stations = d.station_list.items;
      bridges = d.bridge_list.items;
      links = d.link_list.items;
      streams = d.stream_list.items;
      link_locals = d.link_local_list.items;
      flows = d.flow_list.items;
      link_local_flows = d.link_local_flow_list.items;
    } };

    ghost invariant = { λ d. IsDocument (record {
      format = d.version;
      stations = d.station_list.items;
      bridges = d.bridge_list.items;
      links = d.link_list.items;
      streams = d.stream_list.items;
      link_locals = d.link_local_list.items;
      flows = d.flow_list.items;
      link_local_flows = d.link_local_flow_list.items;
    }) };
}

/// The format of a document and its lists, each in file order.
#[derive(Drop)]
pub struct Parts {
    /// The format.
    pub format: Format,
    /// The stations.
    pub stations: Vec<StationEntry>,
    /// The bridges.
    pub bridges: Vec<BridgeEntry>,
    /// The links.
    pub links: Vec<LinkEntry>,
    /// The streams.
    pub streams: Vec<StreamEntry>,
    /// The streams for each port.
    pub link_locals: Vec<LinkLocalEntry>,
    /// The flows.
    pub flows: Vec<FlowEntry>,
    /// The flows for each port.
    pub link_local_flows: Vec<LinkLocalFlowEntry>,
}

impl Document {
    ghost use Rattle.ats_network_toml.specs.Document.{IsDocument};
    ghost use Rattle.ats_network_toml.specs.PartsView.{parts_view};

    /// The format.
    pub fn format(&self) -> Format
        ensures value { result ≡ self.now.format }
        ensures limits { IsDocument self.now }
    {
        self.version
    }

    /// The stations, in file order; with the bridges they are at most 1024.
    pub fn stations(&self) -> &[StationEntry]
        ensures value { result.now ≡ self.now.stations }
        ensures limits { IsDocument self.now }
    {
        &self.station_list
    }

    /// The bridges, in file order; with the stations they are at most 1024.
    pub fn bridges(&self) -> &[BridgeEntry]
        ensures value { result.now ≡ self.now.bridges }
        ensures limits { IsDocument self.now }
    {
        &self.bridge_list
    }

    /// The links, in file order, at most 2048.
    pub fn links(&self) -> &[LinkEntry]
        ensures value { result.now ≡ self.now.links }
        ensures limits { IsDocument self.now }
    {
        &self.link_list
    }

    /// The streams, in file order, at most 4096.
    pub fn streams(&self) -> &[StreamEntry]
        ensures value { result.now ≡ self.now.streams }
        ensures limits { IsDocument self.now }
    {
        &self.stream_list
    }

    /// The streams for each port, in file order; with the streams they stand for at most 4096.
    pub fn link_locals(&self) -> &[LinkLocalEntry]
        ensures value { result.now ≡ self.now.link_locals }
        ensures limits { IsDocument self.now }
    {
        &self.link_local_list
    }

    /// The flows, in file order, at most 1024.
    pub fn flows(&self) -> &[FlowEntry]
        ensures value { result.now ≡ self.now.flows }
        ensures limits { IsDocument self.now }
    {
        &self.flow_list
    }

    /// The flows for each port, in file order; with the flows they stand for at most 4096.
    pub fn link_local_flows(&self) -> &[LinkLocalFlowEntry]
        ensures value { result.now ≡ self.now.link_local_flows }
        ensures limits { IsDocument self.now }
    {
        &self.link_local_flow_list
    }

    /// The format and the lists, for a caller that keeps them.
    pub fn into_parts(self) -> Parts
        ensures value { parts_view result ≡ self }
        ensures limits { IsDocument self }
    {
        let Document {
            version,
            station_list,
            bridge_list,
            link_list,
            stream_list,
            link_local_list,
            flow_list,
            link_local_flow_list,
        } = self;
        Parts {
            format: version,
            stations: station_list,
            bridges: bridge_list,
            links: link_list,
            streams: stream_list,
            link_locals: link_local_list,
            flows: flow_list,
            link_local_flows: link_local_flow_list,
        }
    }
}
