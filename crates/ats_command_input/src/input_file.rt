//! What the files of a call declare.

ghost use Rattle.std.specs.Prelude.{◌≡◌, ℕ, ◌<◌, ◌≤◌, List, length, Some, Ok, Err, All, IfOk, IsErrOf};
ghost use Rattle.std.specs.Prelude.{vec_len};
ghost use Rattle.std.specs.Global.{Vec};
ghost use Rattle.ats_io.specs.declared.files.TheConstants.{MAX_PLACE};
ghost use Rattle.ats_io.specs.Outside.{IfTold};
ghost use Rattle.ats_command_input.specs.Answer.{input_text};
ghost use Rattle.ats_command_input.specs.Input.{bytes_in, shape_in, network_in, records_in, releases_in, rows_in};
ghost use Rattle.ats_command_input.specs.Input.{requests_in, traffic_in};
ghost use Rattle.ats_capture.specs.Reading.{IsLongEnough};
ghost use Rattle.ats_capture.specs.Seen.{seen};
ghost use Rattle.ats_command_input.specs.Outcome.{Gives, PassesOn, ReadsFile};
ghost use Rattle.ats_requests.specs.Requests.{MayAsk};
ghost use Rattle.ats_trace.specs.Releases.{AreReleases, HaveFewPorts};

use crate::outcome::Stop;
use ats_capture::{RecordsFault, StationTraffic, capture_records, captured};
use ats_certificate::Certificate;
use ats_certificate_file::read_certificate;
use ats_io::{Files, ReadFault, read_whole};
use ats_network::Network;
use ats_network_file::read_network;
use ats_num::{Failure, Fault};
use ats_pcap::Record;
use ats_request_file::read_requests;
use ats_requests::Request;
use ats_schedule::read_schedule;
use ats_shape::{Shape, read_shape};
use ats_topology::Topology;
use ats_trace::Release;
use std::alloc::{AllocError, Global};
use std::fmt::Display;

/// The most bytes of a file that declares a shape, a network or a certificate, or makes requests.
pub const MAX_BYTES: u64 = 16_777_216;

/// The most bytes of a schedule's file.
pub const MAX_SCHEDULE_BYTES: u64 = 33_554_432;

/// The shape that a file declares. `Input` exactly where the file is too long or has a fault, and
/// `ReadFailed` only where a fault came at it.
pub fn shape_in<F: Files>(alloc: Global, file: &str, files: &mut F) -> Result<Shape, Stop>
    ensures due { IfTold (F.told files.old file.now)
        (λ bytes. Gives (λ shape. shape) result (shape_in file.now bytes)) }
    ensures reads { ReadsFile F.told F.faults F.reads file.now files.old files.new result }
{
    let bytes = bytes_in(alloc, file, MAX_BYTES, files)?;
    declared(alloc, file, read_shape(alloc, &bytes))
}

/// The network that a file declares. `Input` exactly where the file is too long or has a fault, and
/// `ReadFailed` only where a fault came at it.
pub fn network_in<F: Files>(alloc: Global, file: &str, files: &mut F) -> Result<Network, Stop>
    ensures due { IfTold (F.told files.old file.now)
        (λ bytes. Gives (λ network. network) result (network_in file.now bytes)) }
    ensures reads { ReadsFile F.told F.faults F.reads file.now files.old files.new result }
{
    let bytes = bytes_in(alloc, file, MAX_BYTES, files)?;
    declared(alloc, file, read_network(alloc, &bytes))
}

/// The certificate that a file declares for the ports of a topology, each row for one of them.
/// `Input` exactly where the file is too long or has a fault, and `ReadFailed` only where a fault
/// came at it.
pub fn certificate_in<F: Files>(
    alloc: Global,
    file: &str,
    topology: &Topology,
    files: &mut F,
) -> Result<Certificate, Stop>
    ensures due { IfTold (F.told files.old file.now)
        (λ bytes. Gives (λ rows. rows) result (rows_in topology.now file.now bytes)) }
    ensures inside { IfOk result (All (λ row. row.port < length topology.now.ports)) }
    ensures reads { ReadsFile F.told F.faults F.reads file.now files.old files.new result }
{
    let bytes = bytes_in(alloc, file, MAX_BYTES, files)?;
    declared(alloc, file, read_certificate(alloc, &bytes, topology))
}

/// The releases that a schedule's file declares for the senders of a network, in the order of its records; they may be
/// run on it, and the ports of their frames are together at most 3,200,000. `Input` exactly where the file is too long
/// or has a fault, `ReadFailed` only where a fault came at it.
pub fn schedule_in<F: Files>(
    alloc: Global,
    file: &str,
    network: &Network,
    files: &mut F,
) -> Result<Vec<Release>, Stop>
    ensures due { IfTold (F.told files.old file.now)
        (λ bytes. Gives (λ releases. releases.items) result (releases_in network.now file.now bytes)) }
    ensures releases { IfOk result (λ releases. AreReleases network.now releases.items) }
    ensures few_ports { IfOk result (λ releases. HaveFewPorts network.now releases.items) }
    ensures reads { ReadsFile F.told F.faults F.reads file.now files.old files.new result }
{
    let bytes = bytes_in(alloc, file, MAX_SCHEDULE_BYTES, files)?;
    declared(alloc, file, read_schedule(alloc, &bytes, network))
}

/// The requests that a file makes over a network, in the order of its lines, each of which may be asked. `Input`
/// exactly where the file is too long or has a fault, `ReadFailed` only where a fault came at it.
pub fn requests_in<F: Files>(
    alloc: Global,
    file: &str,
    network: &Network,
    files: &mut F,
) -> Result<Vec<Request>, Stop>
    ensures due { IfTold (F.told files.old file.now)
        (λ bytes. Gives (λ requests. requests.items) result (requests_in network.now file.now bytes)) }
    ensures allowed { IfOk result (λ requests. All (MayAsk network.now) requests.items) }
    ensures reads { ReadsFile F.told F.faults F.reads file.now files.old files.new result }
{
    let bytes = bytes_in(alloc, file, MAX_BYTES, files)?;
    declared(alloc, file, read_requests(alloc, &bytes, network))
}

/// What a station sent, as the capture in a file tells of it; its releases may be run on the network,
/// and the ports of their frames are together at most 3,200,000.
/// `Input` exactly where the file is too long or has a fault, or its records are over a limit, and
/// `ReadFailed` only where a fault came at it.
pub fn traffic_in<F: Files>(
    alloc: Global,
    file: &str,
    network: &Network,
    station: u32,
    files: &mut F,
) -> Result<StationTraffic, Stop>
    ensures due { IfTold (F.told files.old file.now)
        (λ bytes. Gives seen result (traffic_in network.now station file.now bytes)) }
    ensures releases { IfOk result (λ traffic. AreReleases network.now traffic.releases.items) }
    ensures few_ports { IfOk result (λ traffic. HaveFewPorts network.now traffic.releases.items) }
    ensures reads { ReadsFile F.told F.faults F.reads file.now files.old files.new result }
{
    let records = records_in(alloc, file, files)?;
    declared(alloc, file, captured(alloc, network, station, &records))
}

// The records of the capture in a file.
#[tactic(auto, unfolding(crate::specs::Input::records_in))]
fn records_in<F: Files>(alloc: Global, file: &str, files: &mut F) -> Result<Vec<Record>, Stop>
    ensures due { IfTold (F.told files.old file.now)
        (λ bytes. Gives (λ records. records.items) result (records_in file.now bytes)) }
    ensures few { IfOk result (λ records. vec_len records ≤ 1_000_000) }
    ensures octets { IfOk result (λ records. All IsLongEnough records.items) }
    ensures reads { ReadsFile F.told F.faults F.reads file.now files.old files.new result }
{
    match capture_records(alloc, files, file) {
        Ok(records) => Ok(records),
        Err(Failure::Fault(RecordsFault::Failed)) => Err(Stop::ReadFailed),
        Err(Failure::Fault(RecordsFault::TooLong)) => {
            Err(Stop::Input(input_line(alloc, file, &"too-long")?))
        }
        Err(Failure::Fault(RecordsFault::Capture(fault))) => {
            Err(Stop::Input(input_line(alloc, file, &fault)?))
        }
        Err(Failure::NoMemory) => Err(Stop::NoMemory),
    }
}

// The bytes of a file of at most so many.
fn bytes_in<F: Files>(alloc: Global, file: &str, most: u64, files: &mut F) -> Result<Vec<u8>, Stop>
    requires { most ≤ MAX_PLACE }
    ensures few { IfOk result (λ bytes. length bytes.items ≤ most) }
    ensures due { IfTold (F.told files.old file.now)
        (λ bytes. Gives (λ whole. whole.items) result (bytes_in most file.now bytes)) }
    ensures reads { ReadsFile F.told F.faults F.reads file.now files.old files.new result }
{
    match read_whole(alloc, files, file, most) {
        Ok(bytes) => Ok(bytes),
        Err(Failure::Fault(ReadFault::TooLong)) => {
            Err(Stop::Input(input_line(alloc, file, &"too-long")?))
        }
        Err(Failure::Fault(ReadFault::Failed)) => Err(Stop::ReadFailed),
        Err(Failure::NoMemory) => Err(Stop::NoMemory),
    }
}

// What was read from the bytes of a file, or the line that tells its fault.
fn declared<T, E: Fault + Display>(
    alloc: Global,
    file: &str,
    read: Result<T, Failure<E>>,
) -> Result<T, Stop>
    ensures due { PassesOn E.output file.now read result }
    ensures same { IfOk result (λ value. read ≡ Ok value) }
    ensures spent { read ≡ Err Failure.NoMemory → result ≡ Err Stop.NoMemory }
    ensures was_read { ¬ IsErrOf result Stop.ReadFailed }
{
    match read {
        Ok(value) => Ok(value),
        Err(Failure::Fault(fault)) => Err(Stop::Input(input_line(alloc, file, &fault)?)),
        Err(Failure::NoMemory) => Err(Stop::NoMemory),
    }
}

// The line that tells the fault of a file.
fn input_line<E: Display>(alloc: Global, file: &str, fault: &E) -> Result<Vec<u8>, AllocError>
    ensures { IfOk result
        (λ text. (words : List ℕ) → E.output fault.now ≡ Some words → text.items ≡ input_text file.now words) }
{
    Ok(format!(in alloc; "input {file} {fault}\n")?.into_bytes())
}
