//! The most streams and flows of a network, which a network file reaches before.

use crate::fixtures::two_stations;
use ats_network::{Network, PushFault};
use ats_num::{Failure, Name};
use ats_streams::{Flow, Stream, is_identity};
use std::alloc::AllocGlobal;
use std::process::Abort;

// The name of the sender with this number.
fn name(rt: &(impl Abort + AllocGlobal), number: u64) -> Name {
    let text = format!(in rt.alloc(); "n{number}").expect(rt, "room");
    Name::new(text.as_bytes()).expect(rt, "a name")
}

// The fault of an answer, where it has one.
fn fault(rt: &impl Abort, answer: Result<(), Failure<PushFault>>) -> Option<PushFault> {
    match answer {
        Ok(()) => None,
        Err(Failure::Fault(fault)) => Some(fault),
        Err(Failure::NoMemory) => panic!(rt; "no room"),
    }
}

// Adds one stream more, whose address is its number, and gives the fault of a refusal.
#[tactic(auto, using(ats_streams::proofs::OneListener::alone_branches, ats_network::proofs::TreeLemmas::alone_tree))]
fn push_stream(
    rt: &(impl Abort + AllocGlobal),
    network: &mut Network,
    number: u64,
) -> Option<PushFault> {
    assert!(rt; is_identity(number, 7));
    let stream = Stream::new(
        rt.alloc(),
        name(rt, number),
        Vec::from_slice(rt.alloc(), &[0]).expect(rt, "room"),
        Vec::new(rt.alloc()),
        &[6],
        100_000,
        12336,
        64,
        1522,
        1_000_000,
        Some((number, 7)),
    )
    .expect(rt, "a stream");
    assert!(rt; network.valid_path(stream.ports()));
    assert!(rt; stream.has_short_routes(network.most_ports()));
    fault(rt, network.push_stream(stream))
}

#[test]
fn limit_of_streams(rt: HostRuntime) {
    let mut network = two_stations(&rt);
    for number in 0..4096 {
        assert!(rt; push_stream(&rt, &mut network, number).is_none());
    }
    assert!(rt; push_stream(&rt, &mut network, 4096) == Some(PushFault::Limit));
}

// Adds one flow more, and gives the fault of a refusal.
fn push_flow(
    rt: &(impl Abort + AllocGlobal),
    network: &mut Network,
    number: u64,
) -> Option<PushFault> {
    let path = Vec::from_slice(rt.alloc(), &[0]).expect(rt, "room");
    let flow = Flow::new(name(rt, number), path, 1522).expect(rt, "a flow");
    assert!(rt; network.valid_path(flow.path()));
    assert!(rt; flow.has_short_path(network.most_ports()));
    fault(rt, network.push_flow(flow))
}

#[test]
fn limit_of_flows(rt: HostRuntime) {
    let mut network = two_stations(&rt);
    for number in 0..4096 {
        assert!(rt; push_flow(&rt, &mut network, number).is_none());
    }
    assert!(rt; push_flow(&rt, &mut network, 4096) == Some(PushFault::Limit));
}

// Whether a fault is told in this word.
fn is_told(rt: &(impl Abort + AllocGlobal), fault: PushFault, word: &str) -> bool {
    let text = format!(in rt.alloc(); "{fault}").expect(rt, "room");
    text.as_str() == word
}

#[test]
fn words_of_faults(rt: HostRuntime) {
    assert!(rt; is_told(&rt, PushFault::NameTaken, "name-taken"));
    assert!(rt; is_told(&rt, PushFault::IdentityTaken, "identity-taken"));
    assert!(rt; is_told(&rt, PushFault::Limit, "limit"));
}
