//! The records of a run while it is made.

ghost use Rattle.std.specs.Prelude.{◌≡◌, length, None};
ghost use Rattle.ats_group.specs.declared.verdict.Verdict.TheVariants.{Eligible};

use ats_fixtures::lines::line;
use ats_group::Verdict;
use ats_num::Ps;
use ats_run_records::Records;
use ats_trace::{Ending, HopRecord, Release};
use std::alloc::AllocGlobal;
use std::process::Abort;

// A release of 64 octets at this time.
fn release(at: u64) -> Release
    ensures { result ≡ record { at = record { 0 = at }; sender = 0; octets = 64 } }
{
    Release {
        at: Ps(at),
        sender: 0,
        octets: 64,
    }
}

// A frame that comes at this time is eligible then, and is not sent yet.
fn came(at: u64) -> HopRecord
    ensures { result ≡ record {
      arrival = record { 0 = at };
      verdict = Eligible (record { 0 = at });
      sent = None;
    } }
{
    HopRecord::new(Ps(at), Verdict::Eligible(Ps(at)))
}

#[test]
fn records_of_two_frames(rt: HostRuntime) {
    let Some(network) = line(rt.alloc()) else {
        panic!(rt; "no network");
    };
    assert!(rt; network.senders() == 2);
    assert!(rt; network.sender_ports(0).len() == 2);
    assert!(rt; network.sender_leg(0, 0).len() == 2);
    let releases = [release(5), release(7)];
    let mut records = Records::open(rt.alloc(), &network, &releases).expect(&rt, "room");
    records.push(1, came(7));
    records.push(0, came(5));
    records.send(1, Ps(7), Ps(9));
    records.push(1, came(10));
    records.close(0, Ending::Discard);
    records.close(1, Ending::Sink(Ps(12)));
    let mut sent = came(7);
    sent.send(Ps(7), Ps(9));
    assert!(rt; records.hops(0) == 1);
    assert!(rt; records.verdict(0) == Verdict::Eligible(Ps(5)));
    assert!(rt; records.hops(1) == 2);
    assert!(rt; records.verdict(1) == Verdict::Eligible(Ps(10)));
    let run = records.finish();
    assert!(rt; run.journeys().len() == 2);
    assert!(rt; run.legs(0) == 1);
    assert!(rt; run.hops_of(0, 0) == [came(5)].as_slice());
    assert!(rt; run.legs(1) == 1);
    assert!(rt; run.hops_of(1, 0) == [sent, came(10)].as_slice());
}
