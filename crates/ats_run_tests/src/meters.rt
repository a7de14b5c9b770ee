//! Meters: which releases keep what a line declares, and by which frame others break it.

use ats_conform::{Broken, conform};
use ats_fixtures::lines::line;
use ats_network::Network;
use ats_num::Failure;
use ats_schedule::read_schedule;
use std::alloc::AllocGlobal;
use std::process::Abort;

// Stream `a` declares 12,336 bits, as many as a frame of 1522 octets has on the wire, at 100,000,000 bits per second.
const KEPT: [&[u8]; 4] = [
    b"at_ps,sender,octets\n",
    b"at_ps,sender,octets\n0,a,1522\n123360000,a,1522\n",
    b"at_ps,sender,octets\n5,a,64\n5,a,64\n5,a,64\n",
    b"at_ps,sender,octets\n0,f,1522\n0,f,1522\n0,a,1522\n",
];

const BROKEN: [(&[u8], Broken); 5] = [
    (
        b"at_ps,sender,octets\n0,a,1522\n123359999,a,1522\n",
        Broken::Bucket { since: 0, frame: 1 },
    ),
    (
        b"at_ps,sender,octets\n0,a,1522\n999999999,a,1522\n999999999,a,64\n",
        Broken::Bucket { since: 1, frame: 2 },
    ),
    (
        b"at_ps,sender,octets\n0,a,1522\n0,a,1523\n",
        Broken::Size { frame: 1 },
    ),
    (
        b"at_ps,sender,octets\n0,f,1522\n0,f,1523\n",
        Broken::Size { frame: 1 },
    ),
    (
        b"at_ps,sender,octets\n0,a,1522\n0,a,1522\n0,a,1523\n",
        Broken::Bucket { since: 0, frame: 1 },
    ),
];

// How the releases of a schedule break what the network declares, where they do.
fn judged(rt: &(impl Abort + AllocGlobal), network: &Network, file: &[u8]) -> Option<Broken> {
    match read_schedule(rt.alloc(), file, network) {
        Ok(releases) => match conform(rt.alloc(), network, &releases) {
            Ok(()) => None,
            Err(Failure::Fault(broken)) => Some(broken),
            Err(Failure::NoMemory) => panic!(rt; "no memory"),
        },
        Err(_) => panic!(rt; "no schedule"),
    }
}

#[test]
fn releases_that_keep_their_buckets(rt: HostRuntime) {
    let Some(network) = line(rt.alloc()) else {
        panic!(rt; "no network");
    };
    for file in KEPT {
        assert!(rt; judged(&rt, &network, file) == None);
    }
}

#[test]
fn the_first_release_that_does_not(rt: HostRuntime) {
    let Some(network) = line(rt.alloc()) else {
        panic!(rt; "no network");
    };
    for (file, broken) in BROKEN {
        assert!(rt; judged(&rt, &network, file) == Some(broken));
    }
}
