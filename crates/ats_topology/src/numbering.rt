//! The ports of links.

ghost use Rattle.std.specs.Prelude.{◌≡◌, ◌+◌, ◌*◌, None, IfOk, IsSome, length};
ghost use Rattle.ats_num.specs.Places.{place_of};
ghost use Rattle.ats_topology.specs.Node.{names_of};
ghost use Rattle.ats_topology.specs.Rates.{ps_per_bit_of};
ghost use Rattle.ats_topology.specs.Faults.{topology_fault};
ghost use Rattle.ats_topology.specs.PortTable.{node_ports};
ghost use Rattle.ats_topology.specs.Topology.{port_of, ports_of};

use crate::link::Link;
use crate::node::Node;
use crate::port::Port;
use crate::port_table::PortTable;
use crate::rates::ps_per_bit;
use ats_num::time::PS_PER_NS;
use ats_num::{Name, NameTable, Ps};
use std::alloc::{AllocError, Global};

/// The ports of links between nodes, two to a link in their order.
pub(crate) fn ports_of(
    alloc: Global,
    names: &NameTable,
    nodes: &[Node],
    links: &[Link],
) -> Result<PortTable, AllocError>
    requires names { names.now ≡ names_of nodes.now }
    requires sound { topology_fault nodes.now links.now ≡ None }
    ensures { IfOk result (λ table. table ≡ node_ports (length nodes.now) (ports_of nodes.now links.now)) }
{
    let mut table = PortTable::new(alloc, nodes.len())?;
    for link in links {
        table.push(port_of(names, nodes, link, &link.a, &link.b))?;
        table.push(port_of(names, nodes, link, &link.b, &link.a))?;
    }
    Ok(table)
}

// The port of a link from the node of one name to that of another.
fn port_of(names: &NameTable, nodes: &[Node], link: &Link, from: &Name, to: &Name) -> Port
    requires names { names.now ≡ names_of nodes.now }
    requires from { IsSome (place_of from.now names.now) }
    requires to { IsSome (place_of to.now names.now) }
    requires rate { IsSome (ps_per_bit_of link.now.mbps) }
    ensures { result ≡ port_of nodes.now link.now from.now to.now }
{
    let to = names.place(to).unwrap();
    let kind = &nodes[to as usize].kind;
    Port {
        from: names.place(from).unwrap(),
        to,
        ps_per_bit: ps_per_bit(link.mbps).unwrap(),
        earliest: after(link, kind.processing_min_ns()),
        latency: after(link, kind.processing_max_ns()),
    }
}

// The propagation of a link and so many nanoseconds of processing, in picoseconds.
fn after(link: &Link, processing_ns: u32) -> Ps
    ensures { result ≡ record { 0 = 1000 * (link.now.propagation_ns + processing_ns) } }
{
    Ps(PS_PER_NS * (u64::from(link.propagation_ns) + u64::from(processing_ns)))
}
