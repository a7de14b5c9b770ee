//! `explain NET`: why the least bounds of a network are as large as they are.

ghost use Rattle.std.specs.Prelude.{IsErrOf};
ghost use Rattle.ats_command_input.specs.Command as table;
ghost use Rattle.ats_command_input.specs.Outcome.{Gives};
ghost use Rattle.ats_command_due.specs.Calls.{Answers, ReadsFiles};
ghost use Rattle.ats_command_due.specs.Judged.{explain_judged};

use ats_command_input::{Stop, network_in};
use ats_explain::Explanation;
use ats_explain_text::explained;
use ats_io::Files;
use ats_network::Network;
use ats_num::Failure;
use ats_verdict_text::refused_network;
use std::alloc::Global;

/// The text of `explain NET`. It stops where the network's file has a fault or can't be read, and
/// where a port and class that some stream uses is overloaded.
pub fn explain<F: Files>(alloc: Global, net: &str, files: &mut F) -> Result<Vec<u8>, Stop>
    ensures due { Answers (F.told files.old) (table.Explain net.now) result }
    ensures reads { ReadsFiles F.told F.faults F.reads (table.Explain net.now) files.old files.new result }
{
    let network = network_in(alloc, net, files)?;
    explanation_of(alloc, &network)
}

// What is printed of a network's least bounds, or what is overloaded.
fn explanation_of(alloc: Global, network: &Network) -> Result<Vec<u8>, Stop>
    ensures due { Gives (λ text. text.items) result (explain_judged network.now) }
    ensures was_read { ¬ IsErrOf result Stop.ReadFailed }
{
    let topology = network.topology();
    match Explanation::new(alloc, network) {
        Ok(explanation) => Ok(explained(alloc, &explanation)?),
        Err(Failure::Fault(reason)) => Err(Stop::Refused(refused_network(
            alloc, topology, &reason,
        )?)),
        Err(Failure::NoMemory) => Err(Stop::NoMemory),
    }
}
