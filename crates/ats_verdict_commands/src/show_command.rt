//! `show NET`: the ports of a network, and the routes of its streams and flows.

ghost use Rattle.std.specs.Prelude.{Ok, IsErrOf};
ghost use Rattle.ats_network_text.specs.Text.{show_text};
ghost use Rattle.ats_command_input.specs.Command as table;
ghost use Rattle.ats_command_due.specs.Calls.{Answers, ReadsFiles};
ghost use Rattle.ats_command_input.specs.Outcome.{Gives};

use ats_command_input::{Stop, network_in};
use ats_io::Files;
use ats_network::Network;
use std::alloc::Global;

/// The text of `show NET`. It stops where the network's file has a fault or can't be read.
pub fn show<F: Files>(alloc: Global, net: &str, files: &mut F) -> Result<Vec<u8>, Stop>
    ensures due { Answers (F.told files.old) (table.Show net.now) result }
    ensures reads { ReadsFiles F.told F.faults F.reads (table.Show net.now) files.old files.new result }
{
    let network = network_in(alloc, net, files)?;
    text_of(alloc, &network)
}

// What is printed of a network.
fn text_of(alloc: Global, network: &Network) -> Result<Vec<u8>, Stop>
    ensures due { Gives (λ text. text.items) result (Ok (show_text network.now)) }
    ensures was_read { ¬ IsErrOf result Stop.ReadFailed }
{
    Ok(ats_network_text::show(alloc, network)?)
}
