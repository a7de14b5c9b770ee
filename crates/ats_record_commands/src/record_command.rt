//! `record NET SCHEDULE ORDER PORT`: runs a schedule, and gives what a port sent as a capture.

ghost use Rattle.std.specs.Prelude.{IfOk};
ghost use Rattle.ats_io.specs.Outside.{IfTold};
ghost use Rattle.ats_trace.specs.Releases.{AreReleases, HaveFewPorts};
ghost use Rattle.ats_command_input.specs.Command as table;
ghost use Rattle.ats_command_input.specs.Input.{releases_in};
ghost use Rattle.ats_command_input.specs.Outcome.{ReadsFile};
ghost use Rattle.ats_command_due.specs.Calls.{Answers, ReadsFiles};
ghost use Rattle.ats_command_due.specs.Recorded.{IsRecordedFile};
ghost use Rattle.ats_command_due.specs.Replayed.{GivesOne};

use ats_command_input::{Order, Stop, network_in, port_in, schedule_in};
use ats_io::Files;
use ats_network::Network;
use ats_ordered_run::run_in;
use ats_trace::Release;
use std::alloc::{AllocError, Global};

/// The bytes of `record NET SCHEDULE ORDER PORT`: the capture of what the port sent in a run of the network with
/// exactly the releases of the schedule, by the tie and the pace of the order. It stops where the network's file has a
/// fault or can't be read, then where no port has the name, and then where the schedule's file has a fault or can't be
/// read.
pub fn record<F: Files>(
    alloc: Global,
    net: &str,
    schedule: &str,
    order: Order,
    port: &str,
    files: &mut F,
) -> Result<Vec<u8>, Stop>
    ensures due { Answers (F.told files.old) (table.Record net.now schedule.now order port.now) result }
    ensures reads { ReadsFiles F.told F.faults F.reads (table.Record net.now schedule.now order port.now)
        files.old files.new result }
{
    let network = network_in(alloc, net, files)?;
    let place = port_in(alloc, port, network.topology())?;
    record_of(alloc, &network, place, schedule, order, files)
}

// The capture of a port in a run of the schedule that a file declares.
fn record_of<F: Files>(
    alloc: Global,
    network: &Network,
    port: u32,
    schedule: &str,
    order: Order,
    files: &mut F,
) -> Result<Vec<u8>, Stop>
    ensures due { IfTold (F.told files.old schedule.now) (λ bytes.
        GivesOne (IsRecordedFile order network.now port) result (releases_in network.now schedule.now bytes)) }
    ensures reads { ReadsFile F.told F.faults F.reads schedule.now files.old files.new result }
{
    let releases = schedule_in(alloc, schedule, network, files)?;
    Ok(file_of(alloc, network, port, &releases, order)?)
}

// The capture of a port in a run with these releases.
fn file_of(
    alloc: Global,
    network: &Network,
    port: u32,
    releases: &[Release],
    order: Order,
) -> Result<Vec<u8>, AllocError>
    requires releases { AreReleases network.now releases.now }
    requires few_ports { HaveFewPorts network.now releases.now }
    ensures { IfOk result (λ file. IsRecordedFile order network.now port releases.now file.items) }
{
    let run = run_in(alloc, network, releases, order)?;
    ats_port_capture::file(alloc, network, &run, port)
}
