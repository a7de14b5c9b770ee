//! `lrq bound NET`: the certificate of a network with the least waits, behind length-rate-quotient regulators.

ghost use Rattle.std.specs.Prelude.{IsErrOf};
ghost use Rattle.ats_lrq.specs.Narrow.{narrowed};
ghost use Rattle.ats_command_input.specs.Command as table;
ghost use Rattle.ats_command_input.specs.Outcome.{Gives};
ghost use Rattle.ats_command_due.specs.Calls.{Answers, ReadsFiles};
ghost use Rattle.ats_command_due.specs.Judged.{bound_judged};

use ats_command_input::{Stop, network_in};
use ats_io::Files;
use ats_lrq::narrow;
use ats_network::Network;
use ats_verdict_commands::bound_command;
use std::alloc::Global;

/// The text of `lrq bound NET`: the certificate of the network with narrowed bursts. It stops where the network's file
/// has a fault or can't be read, and where no certificate of the network with narrowed bursts holds.
pub fn lrq_bound<F: Files>(alloc: Global, net: &str, files: &mut F) -> Result<Vec<u8>, Stop>
    ensures due { Answers (F.told files.old) (table.LrqBound net.now) result }
    ensures reads { ReadsFiles F.told F.faults F.reads (table.LrqBound net.now) files.old files.new result }
{
    let network = network_in(alloc, net, files)?;
    certificate_of(alloc, network)
}

// What is printed of the certificate of a network with narrowed bursts, or why none holds.
fn certificate_of(alloc: Global, mut network: Network) -> Result<Vec<u8>, Stop>
    ensures due { Gives (λ text. text.items) result (bound_judged (narrowed network)) }
    ensures was_read { ¬ IsErrOf result Stop.ReadFailed }
{
    narrow(&mut network);
    bound_command::certificate_of(alloc, &network)
}
