//! Networks whose streams have several listeners, read from their files of format 3. In each, links carry 1,000,000,000
//! bits per second over 500 ns, a bridge takes 1000 ns for a frame, and streams have 100,000,000 bits per second where
//! nothing else is said.

use ats_network::Network;
use ats_network_file::read_network;
use std::alloc::{AllocError, Global};

// Stations s1, s2 and s3 with links to b1.
const STAR: &[u8] =
    b"format = 3\n[[station]]\nname = \"s1\"\n[[station]]\nname = \"s2\"\n[[station]]\nname = \"s3\"\n\
    [[link]]\na = \"s1\"\nb = \"b1\"\nmbps = 1000\npropagation_ns = 500\n\
    [[link]]\na = \"b1\"\nb = \"s2\"\nmbps = 1000\npropagation_ns = 500\n\
    [[link]]\na = \"b1\"\nb = \"s3\"\nmbps = 1000\npropagation_ns = 500\n";

// The bridge and the senders of each network over these.
const FORK: &[u8] =
    b"[[bridge]]\nname = \"b1\"\nprocessing_min_ns = 1000\nprocessing_max_ns = 1000\n\
    residence_ns = 1000000\n\
    [[stream]]\nname = \"a\"\nfrom = \"s1\"\nto = [\"s2\", \"s3\"]\nclass = 6\nrate_bps = 100000000\n\
    burst_bits = 12336\nmin_octets = 64\nmax_octets = 1522\ndeadline_ns = 1000000\n\
    address = \"02:00:00:00:00:01\"\nvlan = 1\n\
    [[flow]]\nname = \"f\"\npath = [\"s3\", \"b1\", \"s2\"]\nmax_octets = 1522\n";

const CLASSES: &[u8] =
    b"[[bridge]]\nname = \"b1\"\nprocessing_min_ns = 1000\nprocessing_max_ns = 1000\n\
    residence_ns = 100000\n\
    [[stream]]\nname = \"a\"\nfrom = \"s1\"\nto = [\"s2\", \"s3\"]\nclasses = [6, 6, 5]\nrate_bps = 100000000\n\
    burst_bits = 12336\nmin_octets = 64\nmax_octets = 1522\n\
    [[stream]]\nname = \"z\"\nfrom = \"s1\"\nto = \"s3\"\nclasses = [6, 5]\nrate_bps = 50000000\n\
    burst_bits = 12336\nmin_octets = 64\nmax_octets = 1522\n";

const CROWD: &[u8] =
    b"[[bridge]]\nname = \"b1\"\nprocessing_min_ns = 1000\nprocessing_max_ns = 1000\n\
    residence_ns = 11664\n\
    [[stream]]\nname = \"a\"\npath = [\"s1\", \"b1\", \"s2\"]\nclass = 6\nrate_bps = 100000000\n\
    burst_bits = 12336\nmin_octets = 64\nmax_octets = 1522\n\
    [[stream]]\nname = \"z\"\nfrom = \"s3\"\nto = [\"s2\", \"s1\"]\nclass = 6\nrate_bps = 100000000\n\
    burst_bits = 12336\nmin_octets = 64\nmax_octets = 1522\n";

const TREE: &[u8] =
    b"format = 3\n[[station]]\nname = \"s1\"\n[[station]]\nname = \"s2\"\n[[station]]\nname = \"s3\"\n\
    [[station]]\nname = \"s4\"\n[[station]]\nname = \"s5\"\n\
    [[bridge]]\nname = \"b1\"\nprocessing_min_ns = 1000\nprocessing_max_ns = 1000\nresidence_ns = 1000000\n\
    [[bridge]]\nname = \"b2\"\nprocessing_min_ns = 1000\nprocessing_max_ns = 1000\nresidence_ns = 0\n\
    [[bridge]]\nname = \"b3\"\nprocessing_min_ns = 1000\nprocessing_max_ns = 1000\nresidence_ns = 1000000\n\
    [[link]]\na = \"s1\"\nb = \"b1\"\nmbps = 1000\npropagation_ns = 500\n\
    [[link]]\na = \"b1\"\nb = \"b2\"\nmbps = 1000\npropagation_ns = 500\n\
    [[link]]\na = \"b2\"\nb = \"s2\"\nmbps = 1000\npropagation_ns = 500\n\
    [[link]]\na = \"b1\"\nb = \"s3\"\nmbps = 1000\npropagation_ns = 500\n\
    [[link]]\na = \"b2\"\nb = \"b3\"\nmbps = 1000\npropagation_ns = 500\n\
    [[link]]\na = \"b3\"\nb = \"s4\"\nmbps = 1000\npropagation_ns = 500\n\
    [[link]]\na = \"b3\"\nb = \"s5\"\nmbps = 1000\npropagation_ns = 500\n\
    [[stream]]\nname = \"a\"\nfrom = \"s1\"\nto = [\"s2\", \"s3\", \"s4\", \"s5\"]\nclass = 6\n\
    rate_bps = 100000000\nburst_bits = 12336\nmin_octets = 64\nmax_octets = 1522\n\
    [[flow]]\nname = \"f\"\npath = [\"s3\", \"b1\", \"b2\", \"s2\"]\nmax_octets = 1522\n";

// The bridge of a hub, and its stream up to the listeners and behind them.
const HUB: &[u8] = b"format = 3\n\
    [[bridge]]\nname = \"b1\"\nprocessing_min_ns = 1000\nprocessing_max_ns = 1000\nresidence_ns = 1000000\n";

const TALKER: &[u8] =
    b"[[stream]]\nname = \"a\"\nclass = 6\nrate_bps = 100000000\nburst_bits = 12336\n\
    min_octets = 64\nmax_octets = 1522\naddress = \"02:00:00:00:00:01\"\nvlan = 1\nfrom = \"s0\"\nto = [";

// The network of the star with this bridge and these senders.
fn over_star(alloc: Global, text: &[u8]) -> Option<Network> {
    let mut whole = Vec::from_slice(alloc, STAR).ok()?;
    whole.extend_from_slice(text).ok()?;
    read_network(alloc, &whole).ok()
}

/// s1, s2 and s3 around b1, with a stream `a` of class 6 from s1 to s2 and s3, and a flow `f` from s3 to s2. `None`
/// where memory runs out.
pub fn fork(alloc: Global) -> Option<Network> {
    over_star(alloc, FORK)
}

/// s1, s2 and s3 around b1, with a stream `a` from s1 to s2 and s3, and a stream `z` from s1 to s3 of half its rate.
/// Both are of class 6, but of class 5 at the port to s3. `None` where memory runs out.
pub fn fork_of_classes(alloc: Global) -> Option<Network> {
    over_star(alloc, CLASSES)
}

/// s1, s2 and s3 around b1, with a stream `a` from s1 to s2, and a stream `z` from s3 to s2 and s1, both of class 6. A
/// frame may wait at b1 for 11,664 ns before it is eligible. `None` where memory runs out.
pub fn crowded_fork(alloc: Global) -> Option<Network> {
    over_star(alloc, CROWD)
}

/// b1, b2 and b3 in a row, with s1 and s3 at b1, s2 at b2, and s4 and s5 at b3; a stream `a` of class 6 from s1 to s2,
/// s3, s4 and s5, and a flow `f` from s3 to s2. At b2 no frame may wait before it is eligible. `None` where memory runs
/// out.
pub fn tree(alloc: Global) -> Option<Network> {
    read_network(alloc, TREE).ok()
}

/// b1 with s0 and so many stations more, s1 and on, and a stream `a` of class 6 from s0 to each of these. `None` where
/// they are more than a network may have, or memory runs out.
pub fn hub(alloc: Global, listeners: u32) -> Option<Network> {
    let mut text = Vec::from_slice(alloc, HUB).ok()?;
    write_stations(alloc, &mut text, listeners).ok()?;
    text.extend_from_slice(TALKER).ok()?;
    write_ends(alloc, &mut text, listeners).ok()?;
    text.extend_from_slice(b"]\n").ok()?;
    read_network(alloc, &text).ok()
}

// The stations of a hub, each with its link.
fn write_stations(alloc: Global, text: &mut Vec<u8>, listeners: u32) -> Result<(), AllocError> {
    for number in 0..=listeners {
        let station = format!(in alloc;
            "[[station]]\nname = \"s{number}\"\n\
            [[link]]\na = \"s{number}\"\nb = \"b1\"\nmbps = 1000\npropagation_ns = 500\n"
        )?;
        text.extend_from_slice(station.as_bytes())?;
    }
    Ok(())
}

// The names of its listeners.
fn write_ends(alloc: Global, text: &mut Vec<u8>, listeners: u32) -> Result<(), AllocError> {
    for number in 1..=listeners {
        let name = format!(in alloc; "\"s{number}\", ")?;
        text.extend_from_slice(name.as_bytes())?;
    }
    Ok(())
}
