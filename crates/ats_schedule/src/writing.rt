//! The text of releases.

ghost use Rattle.std.specs.Prelude.{◌≡◌, ◌++◌, ◌<◌, length, All, IfOk, OnOk};
ghost use Rattle.ats_csv.specs.Plain.{record_text};
ghost use Rattle.ats_network.specs.Network.{senders_of};
ghost use Rattle.ats_trace.specs.declared.journey.Release.{Release};
ghost use Rattle.ats_schedule.specs.Reading.{header};
ghost use Rattle.ats_schedule.specs.Text.{fields_of, schedule_text};

use ats_csv::{Field, push_record};
use ats_network::Network;
use ats_trace::Release;
use std::alloc::{AllocError, Global};

// The text of the first record.
const HEADER_LINE: &[u8] = b"at_ps,sender,octets\n";

/// The text of releases of senders of a network: the header, and a record for each release.
/// `AllocError` where there is no memory for it.
#[tactic(auto, using(crate::proofs::Texts::release_more, crate::proofs::Texts::no_release))]
pub fn write_schedule(
    alloc: Global,
    releases: &[Release],
    network: &Network,
) -> Result<Vec<u8>, AllocError>
    requires { All (λ (r : Release). r.sender < length (senders_of network.now)) releases.now }
    ensures { IfOk result (λ text. text.items ≡ schedule_text network.now releases.now) }
{
    let mut out = Vec::new(alloc);
    write_header(&mut out)?;
    for release in releases {
        write_release(&mut out, release, network)?;
    }
    Ok(out)
}

// Appends the record of the header.
#[tactic(auto, unfolding(crate::specs::Reading::header))]
fn write_header(out: &mut Vec<u8>) -> Result<(), AllocError>
    ensures { OnOk result (out.new.items ≡ out.old.items ++ record_text header) }
{
    Ok(out.extend_from_slice(HEADER_LINE)?)
}

// Appends the record of a release.
fn write_release(out: &mut Vec<u8>, release: &Release, network: &Network) -> Result<(), AllocError>
    requires { release.now.sender < length (senders_of network.now) }
    ensures { OnOk result (out.new.items ≡ out.old.items ++ record_text (fields_of network.now release.now)) }
{
    let name = network.sender_name(release.sender);
    push_record(
        out,
        &[
            Field::Number(release.at.0.into()),
            Field::Text(name.bytes()),
            Field::Number(release.octets.into()),
        ],
    )
}
