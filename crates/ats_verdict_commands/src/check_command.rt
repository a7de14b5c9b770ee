//! `check NET CERT`: judges a certificate of a network, and gives the sums.

ghost use Rattle.std.specs.Prelude.{IfOk, IsErrOf, OnOk};
ghost use Rattle.ats_io.specs.Outside.{IfTold};
ghost use Rattle.ats_certificate.specs.Certificate.{Holds};
ghost use Rattle.ats_checker.specs.Ports.{RowsInside};
ghost use Rattle.ats_command_input.specs.Command as table;
ghost use Rattle.ats_command_due.specs.Calls.{Answers, ReadsFiles};
ghost use Rattle.ats_command_due.specs.Judged.{certificate_judged, check_judged};
ghost use Rattle.ats_command_input.specs.Outcome.{Gives, ReadsFile};
ghost use Rattle.ats_command_due.specs.Soundness.{IsSoundFile, IsSoundText, Promises};

use ats_certificate::Certificate;
use ats_command_input::{Stop, certificate_in, network_in};
use ats_io::Files;
use ats_network::Network;
use ats_num::Failure;
use ats_verdict_text::{accepted, refused_certificate};
use std::alloc::Global;

/// The text of `check NET CERT`: the bounds and sums of the certificate, which are sound. It stops where the network's
/// file and then where the certificate's has a fault or can't be read, and where the certificate does not hold.
pub fn check<F: Files>(
    alloc: Global,
    net: &str,
    certificate: &str,
    files: &mut F,
) -> Result<Vec<u8>, Stop>
    ensures due { Answers (F.told files.old) (table.Check net.now certificate.now) result }
    ensures sound { IfOk result (λ text.
        Promises (F.told files.old) (table.Check net.now certificate.now) text.items) }
    ensures reads { ReadsFiles F.told F.faults F.reads (table.Check net.now certificate.now)
        files.old files.new result }
{
    let network = network_in(alloc, net, files)?;
    verdict_of(alloc, &network, certificate, files)
}

// What is printed of the certificate that a file declares.
fn verdict_of<F: Files>(
    alloc: Global,
    network: &Network,
    certificate: &str,
    files: &mut F,
) -> Result<Vec<u8>, Stop>
    ensures due { IfTold (F.told files.old certificate.now) (λ bytes.
        Gives (λ text. text.items) result (certificate_judged network.now certificate.now bytes)) }
    ensures sound { IfOk result (λ text. IfTold (F.told files.old certificate.now)
        (λ bytes. IsSoundFile network.now certificate.now bytes text.items)) }
    ensures reads { ReadsFile F.told F.faults F.reads certificate.now files.old files.new result }
{
    let rows = certificate_in(alloc, certificate, network.topology(), files)?;
    judgement_of(alloc, network, &rows)
}

/// What is printed of a certificate that holds, or why it does not.
pub fn judgement_of(
    alloc: Global,
    network: &Network,
    certificate: &Certificate,
) -> Result<Vec<u8>, Stop>
    requires { RowsInside network.now.topology certificate.now }
    ensures due { Gives (λ text. text.items) result (check_judged network.now certificate.now) }
    ensures sound { IfOk result (λ text. IsSoundText network.now certificate.now text.items) }
    ensures holds { OnOk result (Holds network.now certificate.now) }
    ensures was_read { ¬ IsErrOf result Stop.ReadFailed }
{
    let topology = network.topology();
    match ats_checker::check(alloc, network, certificate) {
        Ok(delays) => Ok(accepted(alloc, &delays)?),
        Err(Failure::Fault(refusal)) => Err(Stop::Refused(refused_certificate(
            alloc, topology, &refusal,
        )?)),
        Err(Failure::NoMemory) => Err(Stop::NoMemory),
    }
}
