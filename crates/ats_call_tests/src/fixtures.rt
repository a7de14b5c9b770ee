//! A network, read from its file.

use ats_network::Network;
use ats_network_file::read_network;
use std::alloc::AllocGlobal;
use std::process::Abort;

const TWO_STATIONS: &[u8] = b"format = 1\n[[station]]\nname = \"s1\"\n[[station]]\nname = \"s2\"\n\
    [[link]]\na = \"s1\"\nb = \"s2\"\nmbps = 1000\npropagation_ns = 500\n";

/// s1 - s2, and no stream or flow. Port 0 leads from s1 to s2.
pub(crate) fn two_stations(rt: &(impl Abort + AllocGlobal)) -> Network {
    match read_network(rt.alloc(), TWO_STATIONS) {
        Ok(network) => network,
        Err(_) => panic!(rt; "no network"),
    }
}
