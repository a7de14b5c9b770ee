//! `capture NET STATION FILE ORDER`: runs what a station sent by a capture, and gives every journey.

ghost use Rattle.std.specs.Prelude.{IfOk};
ghost use Rattle.ats_io.specs.Outside.{IfTold};
ghost use Rattle.ats_capture.specs.Seen.{seen};
ghost use Rattle.ats_trace.specs.Releases.{AreReleases, HaveFewPorts};
ghost use Rattle.ats_command_input.specs.Command as table;
ghost use Rattle.ats_command_input.specs.Input.{traffic_in};
ghost use Rattle.ats_command_input.specs.Outcome.{ReadsFile};
ghost use Rattle.ats_command_due.specs.Calls.{Answers, ReadsFiles};
ghost use Rattle.ats_command_due.specs.Captured.{IsCaptureText};
ghost use Rattle.ats_command_due.specs.Replayed.{GivesOne};

use ats_capture::{StationTraffic, counts_line};
use ats_command_input::{Order, Stop, network_in, station_in, traffic_in};
use ats_io::Files;
use ats_network::Network;
use ats_ordered_run::run_in;
use ats_replay::departures;
use std::alloc::{AllocError, Global};

/// The text of `capture NET STATION FILE ORDER`: every journey of a run of the network with exactly the releases of the
/// station that the capture tells of, by the tie and the pace of the order, and the counts of its records. It stops
/// where the network's file has a fault or can't be read, then where no station has the name, and then where the
/// capture's file has a fault or can't be read or its releases are over a limit.
pub fn capture<F: Files>(
    alloc: Global,
    net: &str,
    station: &str,
    file: &str,
    order: Order,
    files: &mut F,
) -> Result<Vec<u8>, Stop>
    ensures due { Answers (F.told files.old) (table.Capture net.now station.now file.now order) result }
    ensures reads { ReadsFiles F.told F.faults F.reads (table.Capture net.now station.now file.now order)
        files.old files.new result }
{
    let network = network_in(alloc, net, files)?;
    let place = station_in(alloc, station, network.topology())?;
    capture_of(alloc, &network, place, file, order, files)
}

// What is printed of a run of the capture in a file.
fn capture_of<F: Files>(
    alloc: Global,
    network: &Network,
    station: u32,
    file: &str,
    order: Order,
    files: &mut F,
) -> Result<Vec<u8>, Stop>
    ensures due { IfTold (F.told files.old file.now) (λ bytes.
        GivesOne (IsCaptureText order network.now) result (traffic_in network.now station file.now bytes)) }
    ensures reads { ReadsFile F.told F.faults F.reads file.now files.old files.new result }
{
    let traffic = traffic_in(alloc, file, network, station, files)?;
    Ok(text_of(alloc, network, &traffic, order)?)
}

// What is printed of a run with these releases, and of the counts.
fn text_of(
    alloc: Global,
    network: &Network,
    traffic: &StationTraffic,
    order: Order,
) -> Result<Vec<u8>, AllocError>
    requires releases { AreReleases network.now traffic.now.releases.items }
    requires few_ports { HaveFewPorts network.now traffic.now.releases.items }
    ensures { IfOk result (λ text. IsCaptureText order network.now (seen traffic.now) text.items) }
{
    let run = run_in(alloc, network, &traffic.releases, order)?;
    let mut text = departures(alloc, network, &run)?;
    let counts = counts_line(alloc, traffic)?;
    text.extend_from_slice(&counts)?;
    Ok(text)
}
