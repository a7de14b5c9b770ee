//! Schedule files as bytes.

ghost use Rattle.std.specs.Prelude.{◌≡◌, [], length, IsTrue, None, Some, IfOk};
ghost use Rattle.std.specs.Global.{Vec};
ghost use Rattle.ats_num.specs.Failure.{GivesSeen};
ghost use Rattle.ats_csv.specs.Reading.{same_fields};
ghost use Rattle.ats_schedule.specs.Reading.{header, releases_from, releases_of, releases_under};
ghost use Rattle.ats_trace.specs.Releases.{AreReleases, HaveFewPorts};

use crate::fault::ScheduleFault;
use crate::recent::Recent;
use crate::release::{record_after, release_after};
use ats_csv::{Records, Taken};
use ats_network::Network;
use ats_num::Failure;
use ats_trace::Release;
use std::alloc::Global;

/// The fields of the first record.
const HEADER: [&[u8]; 3] = [b"at_ps", b"sender", b"octets"];

/// The releases that a file declares for the senders of a network, in the order of its records, or
/// its first fault with its record, counted from 1. They may be run on the network: there are at
/// most 200,000, their times do not descend and are at most 100,000,000,000,000,000 ps, each sender
/// exists, and octets are 64 to 2000. The ports of their frames, a frame having those of its sender,
/// are together at most 3,200,000.
pub fn read_schedule(
    alloc: Global,
    bytes: &[u8],
    network: &Network,
) -> Result<Vec<Release>, Failure<ScheduleFault>>
    ensures due { GivesSeen (λ v. v.items) result (releases_of network.now bytes.now) }
    ensures releases { IfOk result (λ v. AreReleases network.now v.items) }
    ensures few_ports { IfOk result (λ v. HaveFewPorts network.now v.items) }
{
    let mut records = Records::open(alloc, bytes);
    releases_under(alloc, network, &mut records)
}

// The releases of the records that are left, the first of which is to be the header.
fn releases_under(
    alloc: Global,
    network: &Network,
    records: &mut Records,
) -> Result<Vec<Release>, Failure<ScheduleFault>>
    requires { records.old.width ≡ None }
    ensures due { GivesSeen (λ v. v.items) result (releases_under network.now records.old.left) }
    ensures releases { IfOk result (λ v. AreReleases network.now v.items) }
    ensures few_ports { IfOk result (λ v. HaveFewPorts network.now v.items) }
{
    match records.advance()? {
        Taken::Record if has_header(records) => releases_from(alloc, network, records),
        _ => Err(Failure::Fault(ScheduleFault::BadRow(1))),
    }
}

// Whether the record that was taken last is the header.
#[tactic(auto, unfolding(crate::specs::Reading::header))]
fn has_header(records: &Records) -> bool
    ensures test { result ≡ same_fields records.now.fields header }
    ensures three { IsTrue result → length records.now.fields ≡ 3 }
{
    records.has_fields(&HEADER)
}

// The releases of the records that are left, the first of which is record 2.
#[tactic(auto, using(crate::proofs::Releases::no_release, crate::proofs::Releases::one_more))]
fn releases_from(
    alloc: Global,
    network: &Network,
    records: &mut Records,
) -> Result<Vec<Release>, Failure<ScheduleFault>>
    requires { records.old.width ≡ Some 3 }
    ensures due { GivesSeen (λ v. v.items) result (releases_from network.now [] records.old.left) }
    ensures releases { IfOk result (λ v. AreReleases network.now v.items) }
    ensures few_ports { IfOk result (λ v. HaveFewPorts network.now v.items) }
{
    let mut recent = Recent::new(alloc)?;
    let mut releases = Vec::new(alloc);
    let mut ports = 0; // of the frames so far
    loop {
        let n = record_after(&releases);
        match records.advance()? {
            Taken::Record => {
                let release = release_after(&mut recent, &releases, ports, network, records)?;
                releases.push(release)?;
                ports += network.sender_ports(release.sender).len();
            }
            Taken::OtherWidth => return Err(Failure::Fault(ScheduleFault::BadRow(n))),
            Taken::End => return Ok(releases),
        }
    }
}
