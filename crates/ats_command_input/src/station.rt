//! The station that a word names.

ghost use Rattle.std.specs.Prelude.{IsErrOf};
ghost use Rattle.ats_command_input.specs.Outcome.{Gives};
ghost use Rattle.ats_command_input.specs.Station.{station_in};

use crate::outcome::Stop;
use ats_topology::Topology;
use std::alloc::Global;

/// The number of the station with this name. `Refused` exactly where no station has it.
#[tactic(auto, unfolding(crate::specs::Station::station_in))]
pub fn station_in(alloc: Global, word: &str, topology: &Topology) -> Result<u32, Stop>
    ensures due { Gives (λ station. station) result (station_in topology.now word.now) }
    ensures was_read { ¬ IsErrOf result Stop.ReadFailed }
{
    match topology.station_named(word.as_bytes()) {
        Some(station) => Ok(station),
        None => {
            let line = format!(in alloc; "refused station {word}\n")?;
            Err(Stop::Refused(line.into_bytes()))
        }
    }
}
