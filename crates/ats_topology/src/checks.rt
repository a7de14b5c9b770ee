//! The faults of a list of nodes and a list of links.

ghost use Rattle.std.specs.Prelude.{◌≡◌, ◌<◌, ◌≤◌, Some, None, IfSome, IfOk, IfErr, OnOk, length};
ghost use Rattle.std.specs.List.{position_from, list_any};
ghost use Rattle.ats_num.specs.Failure.{IsDue};
ghost use Rattle.ats_topology.specs.Node.{names_of};
ghost use Rattle.ats_topology.specs.Link.{is_self_link};
ghost use Rattle.ats_topology.specs.Faults.{node_twice, link_twice, self_link, unknown_node, bad_rate, limit};
ghost use Rattle.ats_topology.specs.Faults.{has_unknown_end, has_bad_rate, is_kind_over, is_node_over, is_link_over};
ghost use Rattle.ats_topology.specs.Faults.{bad_processing, has_bad_processing, topology_fault};
ghost use Rattle.ats_topology.specs.Faults.{is_over};

use crate::fault::TopologyFault;
use crate::link::{Link, MAX_LINKS, MAX_PROPAGATION_NS};
use crate::node::{Kind, MAX_NODES, MAX_PROCESSING_NS, MAX_RESIDENCE_NS, Node};
use crate::rates::ps_per_bit;
use crate::stations::check_stations;
use ats_clock::clock::{MAX_DEVIATION_PPM, MAX_STEP_PS};
use ats_num::{Failure, NameTable};
use std::alloc::Global;
use std::collections::BTreeSet;

/// The names of the nodes, or the first fault of nodes and links.
#[tactic(auto, using(crate::proofs::Due::passed_on, crate::proofs::Due::due_first, crate::proofs::Due::due_later))]
pub(crate) fn check(
    alloc: Global,
    nodes: &[Node],
    links: &[Link],
) -> Result<NameTable, Failure<TopologyFault>>
    requires few_nodes { length nodes.now < 4294967295 }
    requires few_links { length links.now < 4294967295 }
    ensures names { IfOk result (λ names. names ≡ names_of nodes.now) }
    ensures sound { OnOk result (topology_fault nodes.now links.now ≡ None) }
    ensures fault { IfErr result (λ fault. IsDue fault (topology_fault nodes.now links.now)) }
{
    let names = named(alloc, nodes)?;
    check_joined(alloc, links)?;
    check_open(links)?;
    check_ends(&names, nodes, links)?;
    check_stations(alloc, &names, nodes, links)?;
    check_rates(links)?;
    check_limits(nodes, links)?;
    check_processing(nodes)?;
    Ok(names)
}

// The names of the nodes, or the first node whose name an earlier one has.
fn named(alloc: Global, nodes: &[Node]) -> Result<NameTable, Failure<TopologyFault>>
    requires few { length nodes.now < 4294967295 }
    ensures names { IfOk result (λ names. names ≡ names_of nodes.now) }
    ensures ok { OnOk result (node_twice nodes.now ≡ None) }
    ensures fault { IfErr result (λ fault. IsDue fault (node_twice nodes.now)) }
{
    let mut names = NameTable::new(alloc);
    for (i, node) in nodes.iter().enumerate() {
        if names.place(&node.name).is_some() {
            return Err(Failure::Fault(TopologyFault::NodeTwice(i as u32 + 1)));
        }
        names.push(node.name)?;
    }
    Ok(names)
}

// The first link that joins what an earlier one joins.
fn check_joined(alloc: Global, links: &[Link]) -> Result<(), Failure<TopologyFault>>
    requires few { length links.now < 4294967295 }
    ensures ok { OnOk result (link_twice links.now ≡ None) }
    ensures fault { IfErr result (λ fault. IsDue fault (link_twice links.now)) }
{
    let mut joined = BTreeSet::new(alloc);
    for (i, link) in links.iter().enumerate() {
        if joined.contains(&(link.a, link.b)) {
            return Err(Failure::Fault(TopologyFault::LinkTwice(i as u32 + 1)));
        }
        joined.insert((link.a, link.b))?;
        joined.insert((link.b, link.a))?;
    }
    Ok(())
}

// The first link with one name at both ends.
fn check_open(links: &[Link]) -> Result<(), TopologyFault>
    requires few { length links.now < 4294967295 }
    ensures ok { OnOk result (self_link links.now ≡ None) }
    ensures fault { IfErr result (λ fault. self_link links.now ≡ Some fault) }
{
    match self_place(links) {
        Some(i) => Err(TopologyFault::SelfLink(i as u32 + 1)),
        None => Ok(()),
    }
}

fn self_place(links: &[Link]) -> Option<usize>
    ensures place { result ≡ position_from is_self_link 0 links.now }
    ensures within { IfSome result (λ i. i < length links.now) }
{
    links.iter().position(|link| link.a == link.b)
}

// The first link with an end that is the name of no node.
fn check_ends(names: &NameTable, nodes: &[Node], links: &[Link]) -> Result<(), TopologyFault>
    requires few { length links.now < 4294967295 }
    requires names { names.now ≡ names_of nodes.now }
    ensures ok { OnOk result (unknown_node nodes.now links.now ≡ None) }
    ensures fault { IfErr result (λ fault. unknown_node nodes.now links.now ≡ Some fault) }
{
    match unknown_place(names, links) {
        Some(i) => Err(TopologyFault::UnknownNode(i as u32 + 1)),
        None => Ok(()),
    }
}

fn unknown_place(names: &NameTable, links: &[Link]) -> Option<usize>
    ensures place { result ≡ position_from (has_unknown_end names.now) 0 links.now }
    ensures within { IfSome result (λ i. i < length links.now) }
{
    links.iter().position(|link| has_unknown_end(names, link))
}

fn has_unknown_end(names: &NameTable, link: &Link) -> bool
    ensures { result ≡ has_unknown_end names.now link.now }
{
    names.place(&link.a).is_none() || names.place(&link.b).is_none()
}

// The first link with a rate that a link may not have.
fn check_rates(links: &[Link]) -> Result<(), TopologyFault>
    requires few { length links.now < 4294967295 }
    ensures ok { OnOk result (bad_rate links.now ≡ None) }
    ensures fault { IfErr result (λ fault. bad_rate links.now ≡ Some fault) }
{
    match bad_rate_place(links) {
        Some(i) => Err(TopologyFault::BadRate(i as u32 + 1)),
        None => Ok(()),
    }
}

fn bad_rate_place(links: &[Link]) -> Option<usize>
    ensures place { result ≡ position_from has_bad_rate 0 links.now }
    ensures within { IfSome result (λ i. i < length links.now) }
{
    links
        .iter()
        .position(|link| ps_per_bit(link.mbps).is_none())
}

// A number of nodes or links, or a number of one of them, that is over its limit.
fn check_limits(nodes: &[Node], links: &[Link]) -> Result<(), TopologyFault>
    ensures ok { OnOk result (limit nodes.now links.now ≡ None) }
    ensures fault { IfErr result (λ fault. limit nodes.now links.now ≡ Some fault) }
{
    if is_over(nodes, links) {
        return Err(TopologyFault::Limit);
    }
    Ok(())
}

fn is_over(nodes: &[Node], links: &[Link]) -> bool
    ensures { result ≡ is_over nodes.now links.now }
{
    if nodes.len() > MAX_NODES || links.len() > MAX_LINKS {
        return true;
    }
    are_nodes_over(nodes) || are_links_over(links)
}

fn are_nodes_over(nodes: &[Node]) -> bool
    ensures { result ≡ list_any is_node_over nodes.now }
{
    nodes.iter().any(|node| is_kind_over(&node.kind))
}

fn is_kind_over(kind: &Kind) -> bool
    ensures { result ≡ is_kind_over kind.now }
{
    match kind {
        Kind::Station => false,
        Kind::Bridge {
            processing_max_ns,
            residence_ns,
            clock_ppm,
            clock_step_ps,
            ..
        } => {
            *processing_max_ns > MAX_PROCESSING_NS
                || *residence_ns > MAX_RESIDENCE_NS
                || *clock_ppm > MAX_DEVIATION_PPM
                || *clock_step_ps > MAX_STEP_PS
        }
    }
}

fn are_links_over(links: &[Link]) -> bool
    ensures { result ≡ list_any is_link_over links.now }
{
    links
        .iter()
        .any(|link| link.propagation_ns > MAX_PROPAGATION_NS)
}

// The first bridge whose least processing is over its greatest.
fn check_processing(nodes: &[Node]) -> Result<(), TopologyFault>
    requires few { length nodes.now < 4294967295 }
    ensures ok { OnOk result (bad_processing nodes.now ≡ None) }
    ensures fault { IfErr result (λ fault. bad_processing nodes.now ≡ Some fault) }
{
    match bad_processing_place(nodes) {
        Some(i) => Err(TopologyFault::BadProcessing(i as u32 + 1)),
        None => Ok(()),
    }
}

fn bad_processing_place(nodes: &[Node]) -> Option<usize>
    ensures place { result ≡ position_from has_bad_processing 0 nodes.now }
    ensures within { IfSome result (λ i. i < length nodes.now) }
{
    nodes.iter().position(|node| node.kind.processing_min_ns() > node.kind.processing_max_ns())
}
