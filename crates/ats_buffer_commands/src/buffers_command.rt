//! `buffers NET CERT`: how much each port must be able to hold of each class.

ghost use Rattle.std.specs.Prelude.{◌≡◌, None, IfOk, IsErrOf};
ghost use Rattle.ats_io.specs.Outside.{IfTold};
ghost use Rattle.ats_certificate.specs.Certificate.{Holds};
ghost use Rattle.ats_checker.specs.Ports.{RowsInside};
ghost use Rattle.ats_buffer.specs.Buffer.{buffers_of};
ghost use Rattle.ats_buffer_text.specs.Text.{buffers_text};
ghost use Rattle.ats_command_input.specs.Command as table;
ghost use Rattle.ats_command_input.specs.Outcome.{Gives, ReadsFile};
ghost use Rattle.ats_command_due.specs.Calls.{Answers, ReadsFiles};
ghost use Rattle.ats_command_due.specs.Judged.{buffers_judged, rows_judged};

use crate::judging::holding;
use ats_buffer_text::listed;
use ats_certificate::Certificate;
use ats_command_input::{Stop, certificate_in, network_in};
use ats_io::Files;
use ats_network::Network;
use std::alloc::{AllocError, Global};

/// The text of `buffers NET CERT`: the buffer of each row of the certificate. It stops where the network's file and
/// then where the certificate's has a fault or can't be read, and where the certificate does not hold.
pub fn buffers<F: Files>(
    alloc: Global,
    net: &str,
    certificate: &str,
    files: &mut F,
) -> Result<Vec<u8>, Stop>
    ensures due { Answers (F.told files.old) (table.Buffers net.now certificate.now) result }
    ensures reads { ReadsFiles F.told F.faults F.reads (table.Buffers net.now certificate.now)
        files.old files.new result }
{
    let network = network_in(alloc, net, files)?;
    buffers_in(alloc, &network, certificate, files)
}

// What is printed of the certificate that a file declares.
fn buffers_in<F: Files>(
    alloc: Global,
    network: &Network,
    certificate: &str,
    files: &mut F,
) -> Result<Vec<u8>, Stop>
    ensures due { IfTold (F.told files.old certificate.now) (λ bytes.
        Gives (λ text. text.items) result (rows_judged network.now certificate.now bytes)) }
    ensures reads { ReadsFile F.told F.faults F.reads certificate.now files.old files.new result }
{
    let rows = certificate_in(alloc, certificate, network.topology(), files)?;
    judgement_of(alloc, network, &rows)
}

// What is printed of a certificate that holds, or why it does not.
fn judgement_of(
    alloc: Global,
    network: &Network,
    certificate: &Certificate,
) -> Result<Vec<u8>, Stop>
    requires inside { RowsInside network.now.topology certificate.now }
    ensures due { Gives (λ text. text.items) result (buffers_judged network.now certificate.now) }
    ensures was_read { ¬ IsErrOf result Stop.ReadFailed }
{
    holding(alloc, network, certificate)?;
    Ok(text_of(alloc, network, certificate)?)
}

// What is printed of the buffers of a certificate that holds.
fn text_of(
    alloc: Global,
    network: &Network,
    certificate: &Certificate,
) -> Result<Vec<u8>, AllocError>
    requires inside { RowsInside network.now.topology certificate.now }
    requires holds { Holds network.now certificate.now }
    ensures { IfOk result (λ text. text.items ≡ buffers_text network.now.topology certificate.now
        (buffers_of network.now certificate.now) None) }
{
    let buffers = ats_buffer::buffers(alloc, network, certificate)?;
    listed(
        alloc,
        network.topology(),
        certificate.rows(),
        &buffers,
        None,
    )
}
