//! The ports of a topology by their names.

ghost use Rattle.std.specs.Prelude.{◌≡◌, ℕ, List, ◌<◌, length, IfOk, OnOk};
ghost use Rattle.ats_port_names.specs.PortName.{port_name, port_named};
ghost use Rattle.ats_port_names.specs.Inside.{IsNumbering, number_in};

use crate::writing::write_port;
use ats_topology::Topology;
use std::alloc::{AllocError, Global};
use std::collections::BTreeMap;
use std::marker::Model;

/// The ports of a topology, found by their names as `write_port` writes them. Contracts see the topology.
#[derive(Drop)]
pub struct PortNames<'a> {
    topology: &'a Topology,
    numbers: BTreeMap<Vec<u8>, u32>,
}

impl<'a> Model for PortNames<'a> {
    ghost use Rattle.ats_topology.specs.Topology.{DeclaredTopology};
    ghost use Rattle.ats_port_names.specs.Inside.{IsNumbering};

    ghost Value = { DeclaredTopology };

    ghost view = { λ n. n.topology.now };

    ghost invariant = { λ n. IsNumbering n.topology.now n.numbers };
}

impl<'a> PortNames<'a> {
    /// The names of all ports of a topology. `AllocError` where there is no memory for them.
    pub fn new(alloc: Global, topology: &'a Topology) -> Result<Self, AllocError>
        ensures { IfOk result (λ names. names ≡ topology.now) }
    {
        let numbers = numbered(alloc, topology)?;
        Ok(PortNames { topology, numbers })
    }

    /// The number of the port with this name; `None` exactly where no port has it.
    pub fn number(&self, text: &[u8]) -> Option<u32>
        ensures { result ≡ port_named self.now text.now }
    {
        self.numbers.get(text).copied()
    }
}

// The number of each port by its name. The last port comes first, so that of ports with one name the first one stays.
fn numbered(alloc: Global, topology: &Topology) -> Result<BTreeMap<Vec<u8>, u32>, AllocError>
    ensures { IfOk result (IsNumbering topology.now) }
{
    let mut numbers = BTreeMap::new(alloc);
    for port in (0..topology.ports().len() as u32).rev() {
        let mut name = Vec::new(alloc);
        write_port(&mut name, topology, port)?;
        numbers.insert(name, port)?;
    }
    Ok(numbers)
}
