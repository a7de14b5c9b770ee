//! A network whose stream has two listeners: admission to it, what is printed of it, and the legs found over it.

ghost use Rattle.std.specs.Prelude.{◌≡◌, ◌≢◌, [], ◌∷◌, IsTrue};
ghost use Rattle.ats_topology.specs.Port.{port_at};
ghost use Rattle.ats_route_tree.specs.LegsView.{paths_view};
ghost use Rattle.ats_session_tests.specs.Forks.{fork, fork_ports};

use ats_admission::Session;
use ats_admission_text::answered;
use ats_network::Network;
use ats_network_file::read_network;
use ats_network_text::show;
use ats_num::Name;
use ats_request_file::read_requests;
use ats_route_tree::{Legs, legs_of};
use ats_settings::settings;
use ats_settings_text::write_settings;
use ats_streams::{Branch, Stream};
use std::alloc::AllocGlobal;
use std::process::Abort;

// One bridge between three stations.
const FORK: &[u8] = b"format = 1\n[[station]]\nname = \"s1\"\n[[station]]\nname = \"s2\"\n\
    [[station]]\nname = \"s3\"\n\
    [[bridge]]\nname = \"b1\"\nprocessing_ns = 1000\nresidence_ns = 1000000\n\
    [[link]]\na = \"s1\"\nb = \"b1\"\nmbps = 1000\npropagation_ns = 500\n\
    [[link]]\na = \"b1\"\nb = \"s2\"\nmbps = 1000\npropagation_ns = 500\n\
    [[link]]\na = \"b1\"\nb = \"s3\"\nmbps = 1000\npropagation_ns = 500\n";

const REQUESTS: &[u8] = b"admit d s2 s3 5 100000000 12336 64 1522 1000000\n\
    admit d s2 s3 lowest 10000000 672 64 64 1000000\n\
    admit c s1 s2 5 100000000 12336 64 1522 1000000\n\
    withdraw a\n\
    admit c s1 s2 5 100000000 12336 64 1522 1000000\n\
    admit e s2 s3 5 100000000 12336 64 1522 1000000\n";

const ANSWERS: &[u8] = b"denied d deadline a s3 39008000\n\
    admitted d 1 17050667\n\
    denied c deadline a 51344000\n\
    withdrawn a\n\
    admitted c 5 26672000\n\
    admitted e 5 28016000\n\
    streams 3\n";

const SHOWN: &[u8] = b"port 0 s1>b1 1000 1500000\n\
    port 1 b1>s1 1000 500000\n\
    port 2 b1>s2 1000 500000\n\
    port 3 s2>b1 1000 1500000\n\
    port 4 b1>s3 1000 500000\n\
    port 5 s3>b1 1000 1500000\n\
    stream a 6 s1>b1 b1>s2\n\
    listener a s3 6 b1>s3\n\
    total ports 6 streams 1 flows 0\n";

const SETTINGS: &[u8] =
    b"bridge,received_from,class,stream,rate_bps,burst_bits,max_octets,residence_ns,sent_to,class_there\n\
    b1,s1>b1,6,a,100000000,12336,1522,1000000,b1>s2,6\n\
    b1,s1>b1,6,a,100000000,12336,1522,1000000,b1>s3,6\n";

// Whether two ports lead to different nodes.
fn part(network: &Network, one: usize, other: usize) -> bool
    ensures { IsTrue result
        → (port_at network.now.topology.ports one).to ≢ (port_at network.now.topology.ports other).to }
{
    let ports = network.topology().ports();
    let Some(one) = ports.get(one) else {
        return false;
    };
    let Some(other) = ports.get(other) else {
        return false;
    };
    one.to != other.to
}

// A stream `a` of class 6 from s1 to s2 and to s3, which the bridge copies to port 4.
#[tactic(auto, using(crate::proofs::Forks::fork_branches))]
fn to_both(rt: &(impl Abort + AllocGlobal)) -> Stream
    ensures ports { result.ports ≡ fork_ports }
    ensures branches { result.branches ≡ fork }
{
    let branch = Branch {
        first: 2,
        leg: 0,
        hop: 1,
    };
    Stream::new(
        rt.alloc(),
        Name::new(b"a").expect(rt, "a name"),
        Vec::from_slice(rt.alloc(), &[0, 2, 4]).expect(rt, "room"),
        Vec::from_slice(rt.alloc(), &[branch]).expect(rt, "room"),
        &[6],
        100_000_000,
        12336,
        64,
        1522,
        30_000,
        None,
    )
    .expect(rt, "a stream")
}

// Adds this stream.
fn push(rt: &(impl Abort + AllocGlobal), network: &mut Network) {
    let stream = to_both(rt);
    assert!(rt; network.valid_path(&[0, 2]));
    assert!(rt; network.valid_path(&[0, 4]));
    assert!(rt; part(network, 2, 4));
    assert!(rt; stream.has_short_routes(network.most_ports()));
    network.push_stream(stream).expect(rt, "a stream more");
}

// The bridge with this stream.
fn with_both(rt: &(impl Abort + AllocGlobal)) -> Network {
    let mut network = read_network(rt.alloc(), FORK).expect(rt, "a network");
    push(rt, &mut network);
    network
}

// A list of two routes.
fn both(rt: &(impl Abort + AllocGlobal), one: &[u32], other: &[u32]) -> Vec<Vec<u32>>
    ensures { paths_view result ≡ one.now ∷ other.now ∷ [] }
{
    let one = Vec::from_slice(rt.alloc(), one).expect(rt, "room");
    let other = Vec::from_slice(rt.alloc(), other).expect(rt, "room");
    let mut routes = Vec::new(rt.alloc());
    routes.push(one).expect(rt, "room");
    routes.push(other).expect(rt, "room");
    routes
}

// The legs that have two routes, if a tree has them.
fn legs_with(
    rt: &(impl Abort + AllocGlobal),
    network: &Network,
    one: &[u32],
    other: &[u32],
) -> Option<Legs> {
    assert!(rt; network.valid_path(one));
    assert!(rt; network.valid_path(other));
    let routes = both(rt, one, other);
    legs_of(rt.alloc(), network.topology(), &routes).expect(rt, "room")
}

// A session over it.
fn session(rt: &(impl Abort + AllocGlobal)) -> Session {
    match Session::open(rt.alloc(), with_both(rt)) {
        Ok(session) => session,
        Err(_) => panic!(rt; "no session"),
    }
}

#[test]
fn names_the_listener(rt: HostRuntime) {
    let mut session = session(&rt);
    let requests = read_requests(rt.alloc(), REQUESTS, session.network()).expect(&rt, "requests");
    let text = answered(rt.alloc(), &mut session, requests).expect(&rt, "room");
    assert!(rt; text.as_slice() == ANSWERS);
}

#[test]
fn shows_each_listener(rt: HostRuntime) {
    let text = show(rt.alloc(), &with_both(&rt)).expect(&rt, "room");
    assert!(rt; text.as_slice() == SHOWN);
}

#[test]
fn sets_each_port_of_a_branch(rt: HostRuntime) {
    let network = with_both(&rt);
    let told = settings(rt.alloc(), &network).expect(&rt, "room");
    let text = write_settings(rt.alloc(), &network, &told).expect(&rt, "room");
    assert!(rt; text.as_slice() == SETTINGS);
}

#[test]
fn finds_the_legs(rt: HostRuntime) {
    let network = read_network(rt.alloc(), FORK).expect(&rt, "a network");
    let Some(legs) = legs_with(&rt, &network, &[0, 2], &[0, 4]) else {
        panic!(rt; "no legs");
    };
    let branch = Branch {
        first: 2,
        leg: 0,
        hop: 1,
    };
    assert!(rt; legs.ports.as_slice() == [0, 2, 4].as_slice());
    assert!(rt; legs.branches.as_slice() == [branch].as_slice());
    assert!(rt; legs_with(&rt, &network, &[0, 2], &[0, 2]).is_none());
}
