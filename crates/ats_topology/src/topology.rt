//! The nodes, links and ports of a network.

ghost use Rattle.std.specs.Prelude.{◌≡◌, ◌<◌, ◌↔◌, IsTrue, None, IfOk, IfErr, IfSome, IfNone, OnOk, length};
ghost use Rattle.ats_num.specs.Failure.{IsDue};
ghost use Rattle.ats_num.specs.Places.{place_of};
ghost use Rattle.ats_topology.specs.Node.{clock_of, names_of};
ghost use Rattle.ats_topology.specs.Port.{port_between, GoesBetween};
ghost use Rattle.ats_topology.specs.Faults.{topology_fault};
ghost use Rattle.ats_topology.specs.Topology.{HasIdealClocks, HasLawfulPorts, IsStationAt, IsTopology};
ghost use Rattle.ats_topology.specs.Topology.{node_at, station_named, topology_of};
ghost use Rattle.ats_topology.specs.Walks.{IsLeastWalk, NoWalk, ArePorts};
ghost use Rattle.ats_topology.specs.KeptWalks.{AreDistancesTo};

use crate::checks::check;
use crate::clocks::have_ideal_clocks;
use crate::fault::TopologyFault;
use crate::link::Link;
use crate::node::Node;
use crate::numbering::ports_of;
use crate::port::Port;
use crate::port_table::PortTable;
use crate::walks::{distances, least_walk, least_walk_by};
use ats_clock::Clock;
use ats_num::{Failure, Name, NameTable};
use std::alloc::{AllocError, Global};
use std::marker::Model;

/// Nodes and the links between them, with the ports of the links. Nodes, links and ports are numbered from 0 in their
/// order. Contracts see the three lists.
#[derive(Drop)]
pub struct Topology {
    node_list: Vec<Node>,
    link_list: Vec<Link>,
    names: NameTable,
    table: PortTable,
    ideal: bool,
}

impl Model for Topology {
    ghost use Rattle.ats_topology.specs.Topology.{DeclaredTopology};
    ghost use Rattle.ats_topology.specs.Kept.{AreKept};

    ghost Value = { DeclaredTopology };

    ghost view = { λ t. record { nodes = t.node_list.items; links = t.link_list.items; ports = t.table.ports } };

    ghost invariant = { λ t. AreKept t.node_list.items t.link_list.items t.names t.table t.ideal };
}

impl Topology {
    /// The topology of these nodes and links, of each fewer than 4,294,967,295. Each link makes two ports, numbered one
    /// after the other: from its first end to its second, then back.
    ///
    /// # Errors
    ///
    /// The first fault of nodes and links, or `Failure::NoMemory` in its place where memory runs out.
    pub fn new(
        alloc: Global,
        nodes: Vec<Node>,
        links: Vec<Link>,
    ) -> Result<Self, Failure<TopologyFault>>
        requires few_nodes { length nodes.items < 4294967295 }
        requires few_links { length links.items < 4294967295 }
        ensures value { IfOk result (λ topology. topology ≡ topology_of nodes.items links.items) }
        ensures sound { OnOk result (topology_fault nodes.items links.items ≡ None) }
        ensures fault { IfErr result (λ fault. IsDue fault (topology_fault nodes.items links.items)) }
    {
        let names = check(alloc, &nodes, &links)?;
        let table = ports_of(alloc, &names, &nodes, &links)?;
        let ideal = have_ideal_clocks(&nodes);
        Ok(Topology {
            node_list: nodes,
            link_list: links,
            names,
            table,
            ideal,
        })
    }

    /// The nodes.
    pub fn nodes(&self) -> &[Node]
        ensures value { result.now ≡ self.now.nodes }
        ensures rules { IsTopology self.now }
        ensures kept { HasLawfulPorts self.now }
    {
        self.node_list.as_slice()
    }

    /// The links.
    pub fn links(&self) -> &[Link]
        ensures value { result.now ≡ self.now.links }
        ensures rules { IsTopology self.now }
        ensures kept { HasLawfulPorts self.now }
    {
        self.link_list.as_slice()
    }

    /// The ports.
    pub fn ports(&self) -> &[Port]
        ensures value { result.now ≡ self.now.ports }
        ensures rules { IsTopology self.now }
        ensures kept { HasLawfulPorts self.now }
    {
        self.table.ports()
    }

    /// Whether each node goes by the ideal clock.
    pub fn has_ideal_clocks(&self) -> bool
        ensures { IsTrue result ↔ HasIdealClocks self.now }
    {
        self.ideal
    }

    /// The clock by which the schedulers of a node go; a station, and a number past the last node, have the ideal one.
    pub fn clock(&self, node: u32) -> Clock
        ensures value { result ≡ clock_of (node_at self.now.nodes node).kind }
        ensures rules { IsTopology self.now }
    {
        let nodes = self.nodes();
        if (node as usize) < nodes.len() {
            nodes[node as usize].kind.clock()
        } else {
            Clock::ideal()
        }
    }

    /// The number of the node with this name; `None` exactly where no node has it.
    pub fn node_named(&self, name: &Name) -> Option<u32>
        ensures number { result ≡ place_of name.now (names_of self.now.nodes) }
        ensures within { IfSome result (λ n. n < length self.now.nodes) }
    {
        self.names.place(name)
    }

    /// The number of the station that a word names; `None` exactly where the word is the name of no station.
    pub fn station_named(&self, word: &[u8]) -> Option<u32>
        ensures number { result ≡ station_named self.now word.now }
        ensures station { IfSome result (IsStationAt self.now) }
    {
        let name = Name::new(word)?;
        let node = self.node_named(&name)?;
        if self.node_list[node as usize].kind.is_station() {
            Some(node)
        } else {
            None
        }
    }

    /// The number of the port from node `a` to node `b`; `None` for two nodes without a link, and for no others.
    pub fn port_between(&self, a: u32, b: u32) -> Option<u32>
        ensures number { result ≡ port_between a b self.now.ports }
        ensures goes { IfSome result (GoesBetween self.now.ports a b) }
    {
        self.table.between(a, b)
    }

    /// The ports of a walk from node `a` to node `b`, which are node numbers: of all such walks one
    /// of fewest ports, and of those the one whose list of port numbers is first in lexicographic
    /// order. `None` where no walk leads there, and nowhere else; no ports where `a` is `b`. The
    /// search is breadth first, and looks at each port once.
    ///
    /// # Errors
    ///
    /// `AllocError` where memory runs out.
    pub fn shortest(&self, alloc: Global, a: u32, b: u32) -> Result<Option<Vec<u32>>, AllocError>
        requires a { a < length self.now.nodes }
        requires b { b < length self.now.nodes }
        ensures walk { IfOk result (λ found. IfSome found (λ walk. IsLeastWalk self.now.ports a b walk.items)) }
        ensures ports { IfOk result (λ found. IfSome found (λ walk. ArePorts self.now.ports walk.items)) }
        ensures none { IfOk result (λ found. IfNone found (NoWalk self.now.ports a b)) }
        ensures rules { IsTopology self.now }
    {
        least_walk(alloc, &self.table, a, b)
    }

    /// For each node the number of ports of the shortest walks from it to one node, by one search.
    pub(crate) fn distances(&self, alloc: Global, to: u32) -> Result<Vec<Option<u32>>, AllocError>
        requires { to < length self.now.nodes }
        ensures { IfOk result (λ distances. AreDistancesTo self.now to distances.items) }
    {
        distances(alloc, &self.table, to)
    }

    /// What `shortest` gives, by the distances to the node where the walk ends.
    pub(crate) fn shortest_by(
        &self,
        alloc: Global,
        distances: &[Option<u32>],
        a: u32,
        b: u32,
    ) -> Result<Option<Vec<u32>>, AllocError>
        requires a { a < length self.now.nodes }
        requires exact { AreDistancesTo self.now b distances.now }
        ensures walk { IfOk result (λ found. IfSome found (λ walk. IsLeastWalk self.now.ports a b walk.items)) }
        ensures ports { IfOk result (λ found. IfSome found (λ walk. ArePorts self.now.ports walk.items)) }
        ensures none { IfOk result (λ found. IfNone found (NoWalk self.now.ports a b)) }
        ensures rules { IsTopology self.now }
    {
        least_walk_by(alloc, &self.table, distances, a, b)
    }
}
