//! That a certificate holds, as `check` judges it.

ghost use Rattle.std.specs.Prelude.{OnOk, IsErrOf};
ghost use Rattle.ats_certificate.specs.Certificate.{Holds};
ghost use Rattle.ats_checker.specs.Ports.{RowsInside};
ghost use Rattle.ats_command_input.specs.Outcome.{Gives};
ghost use Rattle.ats_command_due.specs.Judged.{unless_refused};

use ats_certificate::Certificate;
use ats_checker::check;
use ats_command_input::Stop;
use ats_network::Network;
use ats_num::Failure;
use ats_verdict_text::refused_certificate;
use std::alloc::Global;

// Passes a certificate that holds. It stops where it does not, with the line why that `check` prints.
pub(crate) fn holding<'a>(
    alloc: Global,
    network: &'a Network,
    certificate: &'a Certificate,
) -> Result<(), Stop>
    requires { RowsInside network.now.topology certificate.now }
    ensures due { Gives (λ passed. passed) result (unless_refused network.now certificate.now tt) }
    ensures holds { OnOk result (Holds network.now certificate.now) }
    ensures was_read { ¬ IsErrOf result Stop.ReadFailed }
{
    let topology = network.topology();
    match check(alloc, network, certificate) {
        Ok(_delays) => Ok(()),
        Err(Failure::Fault(refusal)) => Err(Stop::Refused(refused_certificate(
            alloc, topology, &refusal,
        )?)),
        Err(Failure::NoMemory) => Err(Stop::NoMemory),
    }
}
