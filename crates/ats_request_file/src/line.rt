//! What one line of a request file asks.

ghost use Rattle.std.specs.Prelude.{◌≡◌, ◌<◌, ◌≤◌, ℕ, [], ◌∷◌, IfOk, IfSome, OnOk, None};
ghost use Rattle.std.specs.Global.{Vec};
ghost use Rattle.std.specs.Option.{option_map};
ghost use Rattle.ats_num.specs.Failure.{Gives, GivesSeen, unless};
ghost use Rattle.ats_io.specs.Text.{words_of};
ghost use Rattle.ats_streams.specs.Stream.{IsStream, stream_fault};
ghost use Rattle.ats_streams.specs.declared.path.TheConstants.{MAX_PORTS};
ghost use Rattle.ats_topology.specs.KeptWalks.{AreKeptFor};
ghost use Rattle.ats_topology.specs.Topology.{IsStationAt};
ghost use Rattle.ats_network.specs.Network.{HasShortRoutes};
ghost use Rattle.ats_network.specs.Path.{IsValidPath};
ghost use Rattle.ats_requests.specs.Requests.{MayAsk};
ghost use Rattle.ats_request_file.specs.Words.{class_in, admit_in};
ghost use Rattle.ats_request_file.specs.Reading.{path_between, path_in, made_class, stream_over};
ghost use Rattle.ats_request_file.specs.declared.fault.RequestFault.TheVariants as faults;
ghost use Rattle.ats_request_file.specs.Reading.{stream_made, admit_line, withdraw_line, request_in, asked_in};

use crate::fault::RequestFault;
use crate::words::{named, numbered};
use ats_network::{Network, shortest_kept};
use ats_num::{Failure, Name};
use ats_requests::Request;
use ats_streams::{Stream, StreamFault};
use ats_topology::{KeptWalks, Topology};
use ats_words::WordLine;
use std::alloc::{AllocError, Global};

/// An `admit` line as it stands: its ends are not looked up and its numbers are not judged yet.
#[derive(Clone, Copy)]
pub(crate) struct AdmitWords {
    pub name: Name,
    /// `None` for `lowest`.
    pub class: Option<u64>,
    pub rate_bps: u64,
    pub burst_bits: u64,
    pub min_octets: u64,
    pub max_octets: u64,
    pub deadline_ns: u64,
}

/// The most requests of a file.
pub const MAX_REQUESTS: usize = 10_000;

/// What line `n` asks after so many requests, or its fault.
pub(crate) fn asked_in(
    alloc: Global,
    network: &Network,
    walks: &mut KeptWalks,
    before: usize,
    n: u32,
    line: &WordLine,
) -> Result<Request, Failure<RequestFault>>
    requires kept { AreKeptFor network.now.topology walks.old }
    ensures value { Gives result (asked_in network.now before n (words_of line.now)) }
    ensures allowed { IfOk result (MayAsk network.now) }
    ensures room { OnOk result (before < MAX_REQUESTS) }
    ensures kept { AreKeptFor network.now.topology walks.new }
{
    let request = request_in(alloc, network, walks, n, line)?;
    if before >= MAX_REQUESTS {
        return Err(Failure::Fault(RequestFault::Limit(n)));
    }
    Ok(request)
}

fn request_in(
    alloc: Global,
    network: &Network,
    walks: &mut KeptWalks,
    n: u32,
    line: &WordLine,
) -> Result<Request, Failure<RequestFault>>
    requires kept { AreKeptFor network.now.topology walks.old }
    ensures value { Gives result (request_in network.now n (words_of line.now)) }
    ensures allowed { IfOk result (MayAsk network.now) }
    ensures kept { AreKeptFor network.now.topology walks.new }
{
    if line.word(0) == b"admit".as_slice() {
        return admit_line(alloc, network, walks, n, line);
    }
    if line.word(0) == b"withdraw".as_slice() {
        return Ok(withdraw_line(n, line)?);
    }
    Err(Failure::Fault(RequestFault::BadLine(n)))
}

fn withdraw_line(n: u32, line: &WordLine) -> Result<Request, RequestFault>
    ensures { result ≡ withdraw_line n (words_of line.now) }
{
    let name = named(n, line, 1)?;
    if line.has_words(2) {
        Ok(Request::Withdraw(name))
    } else {
        Err(RequestFault::BadLine(n))
    }
}

fn admit_line(
    alloc: Global,
    network: &Network,
    walks: &mut KeptWalks,
    n: u32,
    line: &WordLine,
) -> Result<Request, Failure<RequestFault>>
    requires kept { AreKeptFor network.now.topology walks.old }
    ensures value { Gives result (admit_line network.now n (words_of line.now)) }
    ensures allowed { IfOk result (MayAsk network.now) }
    ensures kept { AreKeptFor network.now.topology walks.new }
{
    let said = admit_in(n, line)?;
    let path = path_in(alloc, network.topology(), walks, n, line)?;
    let stream = stream_over(alloc, path, network.most_ports(), n, &said)?;
    match said.class {
        None => Ok(Request::Lowest(stream)),
        Some(_) => Ok(Request::Admit(stream)),
    }
}

// What the words of an `admit` line say.
fn admit_in(n: u32, line: &WordLine) -> Result<AdmitWords, RequestFault>
    ensures { result ≡ admit_in n (words_of line.now) }
{
    let name = named(n, line, 1)?;
    let class = class_in(n, line)?;
    let rate_bps = numbered(n, line, 5)?;
    let burst_bits = numbered(n, line, 6)?;
    let min_octets = numbered(n, line, 7)?;
    let max_octets = numbered(n, line, 8)?;
    let deadline_ns = numbered(n, line, 9)?;
    if !line.has_words(10) {
        return Err(RequestFault::BadLine(n));
    }
    Ok(AdmitWords {
        name,
        class,
        rate_bps,
        burst_bits,
        min_octets,
        max_octets,
        deadline_ns,
    })
}

fn class_in(n: u32, line: &WordLine) -> Result<Option<u64>, RequestFault>
    ensures { result ≡ class_in n (words_of line.now) }
{
    if line.word(4) == b"lowest".as_slice() {
        return Ok(None);
    }
    Ok(Some(numbered(n, line, 4)?))
}

// The path between the stations that an `admit` line names.
fn path_in(
    alloc: Global,
    topology: &Topology,
    walks: &mut KeptWalks,
    n: u32,
    line: &WordLine,
) -> Result<Vec<u32>, Failure<RequestFault>>
    requires kept { AreKeptFor topology.now walks.old }
    ensures value { GivesSeen (λ path. path.items) result (path_in topology.now n (words_of line.now)) }
    ensures valid { IfOk result (λ path. IsValidPath topology.now path.items) }
    ensures kept { AreKeptFor topology.now walks.new }
{
    let unknown = RequestFault::UnknownNode(n);
    let from = topology.station_named(line.word(2)).ok_or(unknown)?;
    let to = topology.station_named(line.word(3)).ok_or(unknown)?;
    match path_between(alloc, topology, walks, from, to)? {
        Some(path) => Ok(path),
        None => Err(Failure::Fault(RequestFault::NoPath(n))),
    }
}

// The ports of the least walk from one station to another one. Walks to it that were searched for before are kept.
fn path_between(
    alloc: Global,
    topology: &Topology,
    walks: &mut KeptWalks,
    from: u32,
    to: u32,
) -> Result<Option<Vec<u32>>, AllocError>
    requires from { IsStationAt topology.now from }
    requires to { IsStationAt topology.now to }
    requires kept { AreKeptFor topology.now walks.old }
    ensures value { IfOk result
        (λ found. option_map (λ (path : Vec ℕ). path.items) found ≡ path_between topology.now from to) }
    ensures valid { IfOk result (λ found. IfSome found (λ path. IsValidPath topology.now path.items)) }
    ensures kept { AreKeptFor topology.now walks.new }
{
    if from == to {
        return Ok(None);
    }
    shortest_kept(alloc, topology, walks, from, to)
}

// The stream that an `admit` line declares over a path, where a route may have so many ports.
fn stream_over(
    alloc: Global,
    path: Vec<u32>,
    most: u32,
    n: u32,
    said: &AdmitWords,
) -> Result<Stream, Failure<RequestFault>>
    requires { most ≤ MAX_PORTS }
    ensures value { Gives result (stream_made most n said.now (stream_over path.items said.now)) }
    ensures rules { IfOk result (λ stream. IsStream stream × (stream.ports ≡ path.items) × (stream.branches ≡ [])
        × (stream.identity ≡ None)) }
    ensures short { IfOk result (HasShortRoutes most) }
{
    let stream = stream_of(alloc, path, n, said)?;
    if stream.has_short_routes(most) {
        Ok(stream)
    } else {
        Err(Failure::Fault(RequestFault::Stream(n, StreamFault::Limit)))
    }
}

// The same, where a route may have as many ports as that of any stream.
fn stream_of(
    alloc: Global,
    path: Vec<u32>,
    n: u32,
    said: &AdmitWords,
) -> Result<Stream, Failure<RequestFault>>
    ensures value { Gives result (unless (faults.Stream n)
        (stream_fault (made_class said.now ∷ []) (stream_over path.items said.now)) (stream_over path.items said.now)) }
    ensures rules { IfOk result (λ stream. IsStream stream × (stream.ports ≡ path.items) × (stream.branches ≡ [])
        × (stream.identity ≡ None)) }
{
    let made = Stream::new(
        alloc,
        said.name,
        path,
        Vec::new(alloc),
        &[said.class.unwrap_or(1)],
        said.rate_bps,
        said.burst_bits,
        said.min_octets,
        said.max_octets,
        said.deadline_ns,
        None,
    );
    match made {
        Ok(stream) => Ok(stream),
        Err(Failure::Fault(fault)) => Err(Failure::Fault(RequestFault::Stream(n, fault))),
        Err(Failure::NoMemory) => Err(Failure::NoMemory),
    }
}
