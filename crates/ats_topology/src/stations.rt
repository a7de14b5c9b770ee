//! How many links each node has.

ghost use Rattle.std.specs.Prelude.{◌≡◌, ◌<◌, ◌==◌, ◌&&◌, not, None, IfSome, IfOk, IfErr, OnOk, length};
ghost use Rattle.std.specs.List.{position_from};
ghost use Rattle.ats_num.specs.Failure.{IsDue};
ghost use Rattle.ats_topology.specs.Node.{names_of, is_station};
ghost use Rattle.ats_topology.specs.Link.{link_counts};
ghost use Rattle.ats_topology.specs.Faults.{node_twice, self_link, unknown_node, station_links, is_badly_linked};

use crate::fault::TopologyFault;
use crate::link::Link;
use crate::node::Node;
use ats_num::{Failure, NameTable};
use std::alloc::{AllocError, Global};

/// The first station without exactly one link.
pub(crate) fn check_stations(
    alloc: Global,
    names: &NameTable,
    nodes: &[Node],
    links: &[Link],
) -> Result<(), Failure<TopologyFault>>
    requires few { length nodes.now < 4294967295 }
    requires few_links { length links.now < 4294967295 }
    requires names { names.now ≡ names_of nodes.now }
    requires apart { node_twice nodes.now ≡ None }
    requires open { self_link links.now ≡ None }
    requires known { unknown_node nodes.now links.now ≡ None }
    ensures ok { OnOk result (station_links nodes.now links.now ≡ None) }
    ensures fault { IfErr result (λ fault. IsDue fault (station_links nodes.now links.now)) }
{
    let counts = link_counts(alloc, names, nodes, links)?;
    match bad_station_place(nodes, links, &counts) {
        Some(i) => Err(Failure::Fault(TopologyFault::StationLinks(i as u32 + 1))),
        None => Ok(()),
    }
}

// For each node the number of links that end there.
fn link_counts(
    alloc: Global,
    names: &NameTable,
    nodes: &[Node],
    links: &[Link],
) -> Result<Vec<usize>, AllocError>
    requires few_links { length links.now < 4294967295 }
    requires names { names.now ≡ names_of nodes.now }
    requires apart { node_twice nodes.now ≡ None }
    requires open { self_link links.now ≡ None }
    requires known { unknown_node nodes.now links.now ≡ None }
    ensures { IfOk result (λ counts. counts.items ≡ link_counts names.now links.now) }
{
    let mut counts = vec![in alloc; 0; nodes.len()]?;
    for link in links {
        let a = names.place(&link.a).unwrap() as usize;
        let b = names.place(&link.b).unwrap() as usize;
        counts[a] += 1;
        counts[b] += 1;
    }
    Ok(counts)
}

fn bad_station_place(nodes: &[Node], links: &[Link], counts: &[usize]) -> Option<usize>
    requires { counts.now ≡ link_counts (names_of nodes.now) links.now }
    ensures place { result ≡ position_from (is_badly_linked links.now) 0 nodes.now }
    ensures within { IfSome result (λ i. i < length nodes.now) }
{
    for (i, node) in nodes.iter().enumerate() {
        if is_badly_linked(node, counts[i]) {
            return Some(i);
        }
    }
    None
}

// Whether a node with so many links is a station and does not have exactly one.
fn is_badly_linked(node: &Node, count: usize) -> bool
    ensures { result ≡ (is_station node.now.kind && not (count == 1)) }
{
    node.kind.is_station() && count != 1
}
