//! Networks of one line, read from their files.

use ats_network::Network;
use ats_network_file::read_network;
use std::alloc::Global;

const LINE: &[u8] = b"format = 1\n[[station]]\nname = \"s1\"\n[[station]]\nname = \"s2\"\n\
    [[bridge]]\nname = \"b1\"\nprocessing_ns = 1000\nresidence_ns = 1000000\n\
    [[link]]\na = \"s1\"\nb = \"b1\"\nmbps = 1000\npropagation_ns = 500\n\
    [[link]]\na = \"b1\"\nb = \"s2\"\nmbps = 1000\npropagation_ns = 500\n\
    [[stream]]\nname = \"a\"\npath = [\"s1\", \"b1\", \"s2\"]\nclass = 6\nrate_bps = 100000000\n\
    burst_bits = 12336\nmin_octets = 64\nmax_octets = 1522\ndeadline_ns = 1000000\n\
    address = \"02:00:00:00:00:01\"\nvlan = 1\n\
    [[flow]]\nname = \"f\"\npath = [\"s1\", \"b1\", \"s2\"]\nmax_octets = 1522\n";

const PAIR: &[u8] = b"format = 2\n[[station]]\nname = \"s1\"\n[[station]]\nname = \"s2\"\n\
    [[bridge]]\nname = \"b1\"\nprocessing_min_ns = 200\nprocessing_max_ns = 1000\nresidence_ns = 1000000\n\
    [[link]]\na = \"s1\"\nb = \"b1\"\nmbps = 1000\npropagation_ns = 500\n\
    [[link]]\na = \"b1\"\nb = \"s2\"\nmbps = 1000\npropagation_ns = 500\n\
    [[stream]]\nname = \"a\"\npath = [\"s1\", \"b1\", \"s2\"]\nclass = 6\nrate_bps = 100000000\n\
    burst_bits = 12336\nmin_octets = 64\nmax_octets = 1522\n\
    [[stream]]\nname = \"b\"\npath = [\"s1\", \"b1\", \"s2\"]\nclass = 6\nrate_bps = 100000000\n\
    burst_bits = 12336\nmin_octets = 64\nmax_octets = 1522\n";

const LONG_LINE: &[u8] = b"format = 1\n[[station]]\nname = \"s1\"\n[[station]]\nname = \"s2\"\n\
    [[bridge]]\nname = \"b1\"\nprocessing_ns = 1000\nresidence_ns = 1000000\n\
    [[bridge]]\nname = \"b2\"\nprocessing_ns = 1000\nresidence_ns = 1000000\n\
    [[bridge]]\nname = \"b3\"\nprocessing_ns = 1000\nresidence_ns = 1000000\n\
    [[bridge]]\nname = \"b4\"\nprocessing_ns = 1000\nresidence_ns = 1000000\n\
    [[bridge]]\nname = \"b5\"\nprocessing_ns = 1000\nresidence_ns = 1000000\n\
    [[bridge]]\nname = \"b6\"\nprocessing_ns = 1000\nresidence_ns = 1000000\n\
    [[bridge]]\nname = \"b7\"\nprocessing_ns = 1000\nresidence_ns = 1000000\n\
    [[bridge]]\nname = \"b8\"\nprocessing_ns = 1000\nresidence_ns = 1000000\n\
    [[link]]\na = \"s1\"\nb = \"b1\"\nmbps = 1000\npropagation_ns = 500\n\
    [[link]]\na = \"b1\"\nb = \"b2\"\nmbps = 1000\npropagation_ns = 500\n\
    [[link]]\na = \"b2\"\nb = \"b3\"\nmbps = 1000\npropagation_ns = 500\n\
    [[link]]\na = \"b3\"\nb = \"b4\"\nmbps = 1000\npropagation_ns = 500\n\
    [[link]]\na = \"b4\"\nb = \"b5\"\nmbps = 1000\npropagation_ns = 500\n\
    [[link]]\na = \"b5\"\nb = \"b6\"\nmbps = 1000\npropagation_ns = 500\n\
    [[link]]\na = \"b6\"\nb = \"b7\"\nmbps = 1000\npropagation_ns = 500\n\
    [[link]]\na = \"b7\"\nb = \"b8\"\nmbps = 1000\npropagation_ns = 500\n\
    [[link]]\na = \"b8\"\nb = \"s2\"\nmbps = 1000\npropagation_ns = 500\n\
    [[stream]]\nname = \"a\"\nfrom = \"s1\"\nto = \"s2\"\nclass = 6\nrate_bps = 100000000\n\
    burst_bits = 12336\nmin_octets = 64\nmax_octets = 1522\n\
    [[stream]]\nname = \"b\"\nfrom = \"s1\"\nto = \"s2\"\nclass = 5\nrate_bps = 100000000\n\
    burst_bits = 12336\nmin_octets = 64\nmax_octets = 1522\n";

/// s1 - b1 - s2 with a stream `a` of class 6 and a flow `f` from s1 to s2. `None` where memory runs out.
pub fn line(alloc: Global) -> Option<Network> {
    read_network(alloc, LINE).ok()
}

/// s1 - b1 - s2 with streams `a` and `b` of class 6 from s1 to s2, and a bridge that takes 200 to 1000 ns for a frame.
/// `None` where memory runs out.
pub fn pair(alloc: Global) -> Option<Network> {
    read_network(alloc, PAIR).ok()
}

/// s1 - b1 - b2 - .. - b8 - s2 with streams `a` and `b` from s1 to s2. `None` where memory runs out.
pub fn long_line(alloc: Global) -> Option<Network> {
    read_network(alloc, LONG_LINE).ok()
}
