//! Made traffic: the first releases from two seeds, which another program made too, and each fault.

use ats_fixtures::lines::line;
use ats_gen::{GenFault, schedule};
use ats_network::Network;
use ats_network_file::read_network;
use ats_num::Failure;
use std::alloc::AllocGlobal;
use std::process::Abort;

// Seeds, and times and octets of the first releases of stream `a` of the line.
const MADE: [(u64, [(u64, u32); 3]); 2] = [
    (1, [(0, 394), (32_240_000, 1511), (95_200_000, 767)]),
    (
        18_446_744_073_709_551_615,
        [(0, 1211), (39_440_000, 784), (138_080_000, 1213)],
    ),
];

// Without a stream, and with one that sends a frame every 12,336 seconds.
const STREAMLESS: &[u8] = b"format = 1\n[[station]]\nname = \"s1\"\n[[station]]\nname = \"s2\"\n\
    [[link]]\na = \"s1\"\nb = \"s2\"\nmbps = 1000\npropagation_ns = 500\n";

const SLOW: &[u8] = b"format = 1\n[[station]]\nname = \"s1\"\n[[station]]\nname = \"s2\"\n\
    [[link]]\na = \"s1\"\nb = \"s2\"\nmbps = 1000\npropagation_ns = 500\n\
    [[stream]]\nname = \"a\"\npath = [\"s1\", \"s2\"]\nclass = 6\nrate_bps = 1\n\
    burst_bits = 12336\nmin_octets = 1522\nmax_octets = 1522\ndeadline_ns = 1000000\n";

fn network_of(rt: &(impl Abort + AllocGlobal), text: &[u8]) -> Network {
    match read_network(rt.alloc(), text) {
        Ok(network) => network,
        Err(_) => panic!(rt; "no network"),
    }
}

#[test]
fn the_first_releases_of_two_seeds(rt: HostRuntime) {
    let Some(network) = line(rt.alloc()) else {
        panic!(rt; "no network");
    };
    for (seed, made) in MADE {
        match schedule(rt.alloc(), &network, seed, 3) {
            Ok(releases) => {
                assert!(rt; releases.len() == 3);
                for (place, (at, octets)) in made.iter().enumerate() {
                    assert!(rt; releases[place].at.0 == *at);
                    assert!(rt; releases[place].sender == 0);
                    assert!(rt; releases[place].octets == *octets);
                }
            }
            Err(_) => panic!(rt; "no releases"),
        }
    }
}

#[test]
fn a_network_without_a_stream(rt: HostRuntime) {
    let network = network_of(&rt, STREAMLESS);
    assert!(rt;
        matches!(
            schedule(rt.alloc(), &network, 1, 1),
            Err(Failure::Fault(GenFault::NoStream))
        )
    );
}

#[test]
fn a_release_past_the_limit(rt: HostRuntime) {
    let network = network_of(&rt, SLOW);
    assert!(rt; schedule(rt.alloc(), &network, 1, 9).is_ok());
    assert!(rt;
        matches!(
            schedule(rt.alloc(), &network, 1, 10),
            Err(Failure::Fault(GenFault::Limit))
        )
    );
}
