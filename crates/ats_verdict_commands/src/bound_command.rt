//! `bound NET`: the certificate of a network with the least waits.

ghost use Rattle.std.specs.Prelude.{IsErrOf};
ghost use Rattle.ats_command_input.specs.Command as table;
ghost use Rattle.ats_command_due.specs.Calls.{Answers, ReadsFiles};
ghost use Rattle.ats_command_due.specs.Judged.{bound_judged};
ghost use Rattle.ats_command_input.specs.Outcome.{Gives};

use ats_bound::make;
use ats_certificate_file::write_certificate;
use ats_command_input::{Stop, network_in};
use ats_io::Files;
use ats_network::Network;
use ats_num::Failure;
use ats_verdict_text::refused_network;
use std::alloc::Global;

/// The text of `bound NET`. It stops where the network's file has a fault or can't be read, and
/// where no certificate of the network holds.
pub fn bound<F: Files>(alloc: Global, net: &str, files: &mut F) -> Result<Vec<u8>, Stop>
    ensures due { Answers (F.told files.old) (table.Bound net.now) result }
    ensures reads { ReadsFiles F.told F.faults F.reads (table.Bound net.now) files.old files.new result }
{
    let network = network_in(alloc, net, files)?;
    certificate_of(alloc, &network)
}

/// What is printed of a network's certificate, or why none holds.
pub fn certificate_of(alloc: Global, network: &Network) -> Result<Vec<u8>, Stop>
    ensures due { Gives (λ text. text.items) result (bound_judged network.now) }
    ensures was_read { ¬ IsErrOf result Stop.ReadFailed }
{
    let topology = network.topology();
    match make(alloc, network) {
        Ok(certificate) => Ok(write_certificate(alloc, &certificate, topology)?),
        Err(Failure::Fault(reason)) => Err(Stop::Refused(refused_network(
            alloc, topology, &reason,
        )?)),
        Err(Failure::NoMemory) => Err(Stop::NoMemory),
    }
}
