//! `lrq check NET CERT`: judges a certificate of a network behind length-rate-quotient regulators, and gives the sums.

ghost use Rattle.std.specs.Prelude.{◌≡◌, IfOk, IsErrOf, OnOk};
ghost use Rattle.ats_io.specs.Outside.{IfTold};
ghost use Rattle.ats_certificate.specs.Certificate.{Holds};
ghost use Rattle.ats_lrq.specs.Narrow.{narrowed};
ghost use Rattle.ats_checker.specs.Ports.{RowsInside};
ghost use Rattle.ats_verdict_text.specs.Text.{accepted_text};
ghost use Rattle.ats_command_input.specs.Command as table;
ghost use Rattle.ats_command_input.specs.Outcome.{Gives, ReadsFile};
ghost use Rattle.ats_command_due.specs.Calls.{Answers, ReadsFiles};
ghost use Rattle.ats_command_due.specs.Judged.{certificate_judged, check_judged};
ghost use Rattle.ats_command_due.specs.Soundness.{Promises};
ghost use Rattle.ats_lrq_commands.specs.Sound.{IsSpacedFile};

use ats_certificate::Certificate;
use ats_command_input::{Stop, certificate_in, network_in};
use ats_io::Files;
use ats_lrq::narrow;
use ats_network::Network;
use ats_verdict_commands::check_command;
use std::alloc::Global;

/// The text of `lrq check NET CERT`: the bounds and sums of the certificate, which are sound for length-rate-quotient
/// regulators and spaced talkers in each legal run of the network as it is declared. It stops where the network's file
/// and then where the certificate's has a fault or can't be read, and where the certificate does not hold with narrowed
/// bursts.
pub fn lrq_check<F: Files>(
    alloc: Global,
    net: &str,
    certificate: &str,
    files: &mut F,
) -> Result<Vec<u8>, Stop>
    ensures due { Answers (F.told files.old) (table.LrqCheck net.now certificate.now) result }
    ensures sound { IfOk result (λ text.
        Promises (F.told files.old) (table.LrqCheck net.now certificate.now) text.items) }
    ensures reads { ReadsFiles F.told F.faults F.reads (table.LrqCheck net.now certificate.now)
        files.old files.new result }
{
    let network = network_in(alloc, net, files)?;
    verdict_of(alloc, network, certificate, files)
}

// What is printed of the certificate that a file declares, over the network with narrowed bursts.
fn verdict_of<F: Files>(
    alloc: Global,
    network: Network,
    certificate: &str,
    files: &mut F,
) -> Result<Vec<u8>, Stop>
    ensures due { IfTold (F.told files.old certificate.now) (λ bytes.
        Gives (λ text. text.items) result (certificate_judged (narrowed network) certificate.now bytes)) }
    ensures sound { IfOk result (λ text. IfTold (F.told files.old certificate.now)
        (λ bytes. IsSpacedFile network certificate.now bytes text.items)) }
    ensures reads { ReadsFile F.told F.faults F.reads certificate.now files.old files.new result }
{
    let rows = certificate_in(alloc, certificate, network.topology(), files)?;
    judgement_of(alloc, network, &rows)
}

// What is printed of a certificate that holds with narrowed bursts, or why it does not.
fn judgement_of(
    alloc: Global,
    mut network: Network,
    certificate: &Certificate,
) -> Result<Vec<u8>, Stop>
    requires { RowsInside network.topology certificate.now }
    ensures due { Gives (λ text. text.items) result (check_judged (narrowed network) certificate.now) }
    ensures holds { OnOk result (Holds (narrowed network) certificate.now) }
    ensures written { IfOk result (λ text. text.items ≡ accepted_text (narrowed network) certificate.now) }
    ensures was_read { ¬ IsErrOf result Stop.ReadFailed }
{
    narrow(&mut network);
    check_command::judgement_of(alloc, &network, certificate)
}
