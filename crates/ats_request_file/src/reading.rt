//! Request files as bytes.

ghost use Rattle.std.specs.Prelude.{◌≤◌, length, IfOk, All};
ghost use Rattle.ats_num.specs.Failure.{GivesSeen};
ghost use Rattle.ats_requests.specs.Requests.{MayAsk};
ghost use Rattle.ats_request_file.specs.Reading.{requests_of};

use crate::fault::RequestFault;
use crate::line::{MAX_REQUESTS, asked_in};
use ats_io::line_at;
use ats_network::Network;
use ats_num::Failure;
use ats_requests::Request;
use ats_topology::KeptWalks;
use ats_words::WordLine;
use std::alloc::Global;

/// The requests that a text makes over a network, in order, or its first fault with its line, counted from 1.
pub fn read_requests(
    alloc: Global,
    bytes: &[u8],
    network: &Network,
) -> Result<Vec<Request>, Failure<RequestFault>>
    requires { length bytes.now ≤ 16777216 }
    ensures value { GivesSeen (λ requests. requests.items) result (requests_of network.now bytes.now) }
    ensures few { IfOk result (λ requests. length requests.items ≤ MAX_REQUESTS) }
    ensures allowed { IfOk result (λ requests. All (MayAsk network.now) requests.items) }
{
    let mut walks = KeptWalks::new(alloc, network.topology())?;
    let mut requests = Vec::new(alloc);
    let mut number = 1;
    let mut at = 0;
    while at < bytes.len() {
        let (end, next) = line_at(bytes, at);
        let line = WordLine::new(&bytes[at..end]);
        if !line.is_skipped() {
            let request = asked_in(alloc, network, &mut walks, requests.len(), number, &line)?;
            requests.push(request)?;
        }
        number += 1;
        at = next;
    }
    Ok(requests)
}
