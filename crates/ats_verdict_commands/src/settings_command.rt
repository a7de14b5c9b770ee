//! `settings NET`: what to set in each bridge of a network.

ghost use Rattle.std.specs.Prelude.{Ok, IsErrOf};
ghost use Rattle.ats_command_input.specs.Command as table;
ghost use Rattle.ats_command_due.specs.Calls.{Answers, ReadsFiles};
ghost use Rattle.ats_command_due.specs.Conformed.{ComesTo};
ghost use Rattle.ats_command_due.specs.Set.{TellsSettings};

use ats_command_input::{Stop, network_in};
use ats_io::Files;
use ats_network::Network;
use ats_settings_text::write_settings;
use std::alloc::Global;

/// The text of `settings NET`. It stops where the network's file has a fault or can't be read.
pub fn settings<F: Files>(alloc: Global, net: &str, files: &mut F) -> Result<Vec<u8>, Stop>
    ensures due { Answers (F.told files.old) (table.Settings net.now) result }
    ensures reads { ReadsFiles F.told F.faults F.reads (table.Settings net.now) files.old files.new result }
{
    let network = network_in(alloc, net, files)?;
    text_of(alloc, &network)
}

// What is printed of the settings of a network.
fn text_of(alloc: Global, network: &Network) -> Result<Vec<u8>, Stop>
    ensures due { ComesTo TellsSettings result (Ok network.now) }
    ensures was_read { ¬ IsErrOf result Stop.ReadFailed }
{
    let settings = ats_settings::settings(alloc, network)?;
    Ok(write_settings(alloc, network, &settings)?)
}
