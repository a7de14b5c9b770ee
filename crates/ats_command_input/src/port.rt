//! The port that a word names.

ghost use Rattle.std.specs.Prelude.{IsErrOf};
ghost use Rattle.ats_command_input.specs.Outcome.{Gives};
ghost use Rattle.ats_command_input.specs.Port.{port_in};

use crate::outcome::Stop;
use ats_port_names::PortNames;
use ats_topology::Topology;
use std::alloc::Global;

/// The number of the port with this name, written `FROM>TO`. `Refused` exactly where no port has it.
#[tactic(auto, unfolding(crate::specs::Port::port_in))]
pub fn port_in(alloc: Global, word: &str, topology: &Topology) -> Result<u32, Stop>
    ensures due { Gives (λ port. port) result (port_in topology.now word.now) }
    ensures was_read { ¬ IsErrOf result Stop.ReadFailed }
{
    let names = PortNames::new(alloc, topology)?;
    match names.number(word.as_bytes()) {
        Some(port) => Ok(port),
        None => {
            let line = format!(in alloc; "refused port {word}\n")?;
            Err(Stop::Refused(line.into_bytes()))
        }
    }
}
