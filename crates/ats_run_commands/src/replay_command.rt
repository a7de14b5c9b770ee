//! `replay NET SCHEDULE ORDER`: runs a schedule, and gives every journey.

ghost use Rattle.std.specs.Prelude.{IfOk};
ghost use Rattle.ats_io.specs.Outside.{IfTold};
ghost use Rattle.ats_trace.specs.Releases.{AreReleases, HaveFewPorts};
ghost use Rattle.ats_command_input.specs.Command as table;
ghost use Rattle.ats_command_input.specs.Input.{releases_in};
ghost use Rattle.ats_command_input.specs.Outcome.{ReadsFile};
ghost use Rattle.ats_command_due.specs.Calls.{Answers, ReadsFiles};
ghost use Rattle.ats_command_due.specs.Replayed.{GivesOne, IsReplayText};

use ats_command_input::{Order, Stop, network_in, schedule_in};
use ats_io::Files;
use ats_network::Network;
use ats_ordered_run::run_in;
use ats_replay::departures;
use ats_trace::Release;
use std::alloc::{AllocError, Global};

/// The text of `replay NET SCHEDULE ORDER`: every journey of a run of the network with exactly the releases of the
/// schedule, by the tie and the pace of the order. It stops where the network's file and then where the schedule's has
/// a fault or can't be read.
pub fn replay<F: Files>(
    alloc: Global,
    net: &str,
    schedule: &str,
    order: Order,
    files: &mut F,
) -> Result<Vec<u8>, Stop>
    ensures due { Answers (F.told files.old) (table.Replay net.now schedule.now order) result }
    ensures reads { ReadsFiles F.told F.faults F.reads (table.Replay net.now schedule.now order)
        files.old files.new result }
{
    let network = network_in(alloc, net, files)?;
    replay_of(alloc, &network, schedule, order, files)
}

// What is printed of a run of the schedule that a file declares.
fn replay_of<F: Files>(
    alloc: Global,
    network: &Network,
    schedule: &str,
    order: Order,
    files: &mut F,
) -> Result<Vec<u8>, Stop>
    ensures due { IfTold (F.told files.old schedule.now) (λ bytes.
        GivesOne (IsReplayText order network.now) result (releases_in network.now schedule.now bytes)) }
    ensures reads { ReadsFile F.told F.faults F.reads schedule.now files.old files.new result }
{
    let releases = schedule_in(alloc, schedule, network, files)?;
    Ok(text_of(alloc, network, &releases, order)?)
}

// What is printed of a run with these releases.
fn text_of(
    alloc: Global,
    network: &Network,
    releases: &[Release],
    order: Order,
) -> Result<Vec<u8>, AllocError>
    requires releases { AreReleases network.now releases.now }
    requires few_ports { HaveFewPorts network.now releases.now }
    ensures { IfOk result (λ text. IsReplayText order network.now releases.now text.items) }
{
    let run = run_in(alloc, network, releases, order)?;
    departures(alloc, network, &run)
}
