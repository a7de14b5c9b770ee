//! The ports between nodes, found by their nodes.

ghost use Rattle.std.specs.Prelude.{◌≡◌, ◌+◌, ◌<◌, ◌^◌, [], ◌∷◌, ◌++◌, length, None, IfSome, IfOk, OnOk, OnErr, All, ℕ};
ghost use Rattle.std.specs.Global.{Vec};
ghost use Rattle.ats_topology.specs.Port.{port_between, leaving};
ghost use Rattle.ats_topology.specs.PortTable.{node_ports};

use crate::port::Port;
use std::alloc::{AllocError, Global};
use std::collections::BTreeMap;
use std::marker::Model;

/// Ports between so many nodes, numbered from 0 in the order in which they came. Contracts see the
/// number of nodes and the list of ports.
#[derive(Drop)]
pub(crate) struct PortTable {
    ports: Vec<Port>,
    places: BTreeMap<(u32, u32), u32>,
    lists: Vec<Vec<u32>>,
}

impl Model for PortTable {
    ghost use Rattle.std.specs.Prelude.{length};
    ghost use Rattle.ats_topology.specs.PortTable.{NodePorts, AreIndexed, node_ports};

    ghost Value = { NodePorts };

    ghost view = { λ t. node_ports (length t.lists.items) t.ports.items };

    ghost invariant = { λ t. AreIndexed t.ports.items t.places t.lists.items };
}

impl PortTable {
    /// No ports between so many nodes.
    pub(crate) fn new(alloc: Global, nodes: usize) -> Result<Self, AllocError>
        ensures { IfOk result (λ table. table ≡ node_ports nodes []) }
    {
        Ok(PortTable {
            ports: Vec::new(alloc),
            places: BTreeMap::new(alloc),
            lists: empty_lists(alloc, nodes)?,
        })
    }

    /// The number of nodes.
    pub(crate) fn nodes(&self) -> usize
        ensures { result ≡ self.now.nodes }
    {
        self.lists.len()
    }

    /// The ports.
    pub(crate) fn ports(&self) -> &[Port]
        ensures { result.now ≡ self.now.ports }
    {
        self.ports.as_slice()
    }

    /// The number of the port from node `a` to node `b`; `None` exactly where there is none.
    pub(crate) fn between(&self, a: u32, b: u32) -> Option<u32>
        ensures { result ≡ port_between a b self.now.ports }
    {
        self.places.get(&(a, b)).copied()
    }

    /// The numbers of the ports that leave a node, in ascending order.
    pub(crate) fn leaving(&self, node: u32) -> &[u32]
        requires { node < self.now.nodes }
        ensures { result.now ≡ leaving node self.now.ports }
    {
        self.lists[node as usize].as_slice()
    }

    /// Adds a port at the end. `AllocError` leaves the table as it was.
    pub(crate) fn push(&mut self, port: Port) -> Result<(), AllocError>
        requires from { port.from < self.old.nodes }
        requires absent { port_between port.from port.to self.old.ports ≡ None }
        requires room { length self.old.ports + 1 < 2 ^ 32 }
        ensures ok { OnOk result (self.new ≡ node_ports self.old.nodes (self.old.ports ++ port ∷ [])) }
        ensures err { OnErr result (self.new ≡ self.old) }
    {
        let place = self.ports.len() as u32;
        let from = port.from as usize;
        self.ports.reserve(1)?;
        self.lists[from].reserve(1)?;
        self.places.insert((port.from, port.to), place)?;
        self.lists[from].push_reserved(place);
        self.ports.push_reserved(port);
        Ok(())
    }
}

fn empty_lists(alloc: Global, nodes: usize) -> Result<Vec<Vec<u32>>, AllocError>
    ensures count { IfOk result (λ lists. length lists.items ≡ nodes) }
    ensures empty { IfOk result (λ lists. All (λ (list : Vec ℕ). list.items ≡ []) lists.items) }
{
    let mut lists = Vec::with_capacity(alloc, nodes)?;
    for _ in 0..nodes {
        lists.push(Vec::new(alloc))?;
    }
    Ok(lists)
}
