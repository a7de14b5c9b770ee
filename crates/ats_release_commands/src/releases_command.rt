//! `releases NET STATION FILE`: the schedule of what a station sent by a capture.

ghost use Rattle.ats_io.specs.Outside.{IfTold};
ghost use Rattle.ats_command_input.specs.Command as table;
ghost use Rattle.ats_command_input.specs.Outcome.{Gives, ReadsFile};
ghost use Rattle.ats_command_due.specs.Calls.{Answers, ReadsFiles};
ghost use Rattle.ats_command_due.specs.Released.{released_at};

use ats_command_input::{Stop, network_in, station_in, traffic_in};
use ats_io::Files;
use ats_network::Network;
use ats_schedule::write_schedule;
use std::alloc::Global;

/// The text of `releases NET STATION FILE`: the schedule of exactly the releases of the station that the capture tells
/// of, with times in picoseconds since its first record. It stops where the network's file has a fault or can't be
/// read, then where no station has the name, and then where the capture's file has a fault or can't be read or its
/// releases are over a limit.
pub fn releases<F: Files>(
    alloc: Global,
    net: &str,
    station: &str,
    file: &str,
    files: &mut F,
) -> Result<Vec<u8>, Stop>
    ensures due { Answers (F.told files.old) (table.Releases net.now station.now file.now) result }
    ensures reads { ReadsFiles F.told F.faults F.reads (table.Releases net.now station.now file.now)
        files.old files.new result }
{
    let network = network_in(alloc, net, files)?;
    let place = station_in(alloc, station, network.topology())?;
    schedule_of(alloc, &network, place, file, files)
}

// The schedule of what a station sent by the capture in a file.
fn schedule_of<F: Files>(
    alloc: Global,
    network: &Network,
    station: u32,
    file: &str,
    files: &mut F,
) -> Result<Vec<u8>, Stop>
    ensures due { IfTold (F.told files.old file.now) (λ bytes.
        Gives (λ text. text.items) result (released_at network.now station file.now bytes)) }
    ensures reads { ReadsFile F.told F.faults F.reads file.now files.old files.new result }
{
    let traffic = traffic_in(alloc, file, network, station, files)?;
    Ok(write_schedule(alloc, &traffic.releases, network)?)
}
