//! The file of a port's capture.

ghost use Rattle.std.specs.Prelude.{◌≡◌, ◌++◌, ◌<◌, All, IfOk, OnOk};
ghost use Rattle.ats_trace.specs.Journey.{IsJourney};
ghost use Rattle.ats_port_capture.specs.Capture.{IsCapture};
ghost use Rattle.ats_port_capture.specs.Sightings.{AreReordered};

use crate::record::{HEADER_BYTES, MOST_RECORD_BYTES, write_header, write_record};
use crate::sending::sent_by;
use crate::sighting::Sighting;
use ats_network::Network;
use ats_trace::Run;
use std::alloc::{AllocError, Global};

/// The capture of a port in a run: a file of the format pcap with nanoseconds, which has a record of
/// each transmission of the port, in the order in which they started. A record has the nanosecond in
/// which the transmission started, counted from the start of the run; how many octets the frame had
/// without its frame check sequence; and the frame's first bytes: the stream's address and VLAN
/// identifier where they are declared, with its class at this port as the priority (IEEE Std 802.1Q,
/// 9.6), else an address with the number of its sender.
///
/// A frame that was copied has one record where its stream has the port, however many listeners are behind.
///
/// Condition: each frame goes along its sender's legs (`IsJourney`), as in every legal run. The capture of a port that
/// no frame passed is the header. It takes the time of sorting the transmissions. `AllocError` where there is no memory
/// for the file, or for the transmissions and as much again.
pub fn file(alloc: Global, network: &Network, run: &Run, port: u32) -> Result<Vec<u8>, AllocError>
    requires { All (IsJourney network.now) run.now }
    ensures { IfOk result (λ file. IsCapture network.now run.now port file.items) }
{
    let sent = in_order(sent_by(alloc, network, run, port)?)?;
    let mut out = Vec::with_capacity(alloc, HEADER_BYTES + sent.len() * MOST_RECORD_BYTES)?;
    write_header(&mut out)?;
    for sighting in &sent {
        write_record(&mut out, network, sighting)?;
    }
    Ok(out)
}

// Transmissions in the order in which they started.
fn in_order(mut sent: Vec<Sighting>) -> Result<Vec<Sighting>, AllocError>
    ensures { IfOk result (λ ordered. AreReordered sent.items ordered.items) }
{
    sent.sort_by_key(|sighting| sighting.start.0)?;
    Ok(sent)
}
