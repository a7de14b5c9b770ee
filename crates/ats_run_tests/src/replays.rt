//! Runs of a line, written by hand, printed and captured, and its schedulers.

ghost use Rattle.std.specs.Prelude.{◌≡◌, ◌<◌, length, All, Some};
ghost use Rattle.ats_num.specs.declared.time.TheConstants.{END};
ghost use Rattle.ats_group.specs.declared.verdict.Verdict.TheVariants.{Eligible};
ghost use Rattle.ats_network.specs.Network.{senders_of};
ghost use Rattle.ats_network.specs.Senders.{sender_at};
ghost use Rattle.ats_trace.specs.Journey.{IsJourney, legs_at};

use ats_fixtures::lines::line;
use ats_group::Verdict;
use ats_network::Network;
use ats_num::Ps;
use ats_port_capture::file;
use ats_replay::{departures, report};
use ats_schedulers::Schedulers;
use ats_trace::{Ending, HopRecord, Journey, Release, Run, Span};
use std::alloc::AllocGlobal;
use std::process::Abort;

const SENT: &[u8] = b"frame 0 a 1522 0\n\
    hop s1>b1 0 eligible 0 start 0 end 12336000\n\
    hop b1>s2 13836000 eligible 13836000 start 13836000 end 26172000\n\
    sink 26672000\n\
    total frames 1 sunk 1 late 0 size 0\n";

const SENT_REPORT: &[u8] = b"stream a frames 1 sunk 1 late 0 size 0 worst 26672000 bound 26672000\n\
    flow f frames 0 sunk 0 late 0 size 0 worst 0 bound -\n\
    total frames 1 sunk 1 late 0 size 0\n";

const DISCARDED: &[u8] = b"frame 0 a 1523 0\n\
    hop s1>b1 0 eligible 0 start 0 end 12344000\n\
    hop b1>s2 13844000 size\n\
    discard\n\
    frame 1 a 64 0\n\
    hop s1>b1 0 eligible 0 start 12344000 end 13016000\n\
    hop b1>s2 14516000 late 33372000\n\
    discard\n\
    total frames 2 sunk 0 late 1 size 1\n";

const DISCARDED_REPORT: &[u8] = b"stream a frames 2 sunk 0 late 1 size 1 worst 0 bound -\n\
    flow f frames 0 sunk 0 late 0 size 0 worst 0 bound -\n\
    total frames 2 sunk 0 late 1 size 1\n";

const HEADER: &[u8] =
    b"\x4d\x3c\xb2\xa1\x02\x00\x04\x00\x00\x00\x00\x00\x00\x00\x00\x00\x00\x00\x04\x00\x01\x00\x00\x00";

const CAPTURED: &[u8] =
    b"\x4d\x3c\xb2\xa1\x02\x00\x04\x00\x00\x00\x00\x00\x00\x00\x00\x00\x00\x00\x04\x00\x01\x00\x00\x00\
    \x00\x00\x00\x00\x0c\x36\x00\x00\x12\x00\x00\x00\xee\x05\x00\x00\
    \x02\x00\x00\x00\x00\x01\x02\x00\x00\x00\x00\x00\x81\x00\xc0\x01\x88\xb5";

// A frame of stream a that is released at 0.
fn journey(octets: u32, ending: Ending) -> Journey
    ensures { result ≡ record {
      release = record { at = record { 0 = 0 }; sender = 0; octets = octets };
      ending = ending;
    } }
{
    Journey {
        release: Release {
            at: Ps(0),
            sender: 0,
            octets,
        },
        ending,
    }
}

// The record of a frame that came at this time and was eligible then, and was sent from one time to another.
fn passing(arrival: u64, start: u64, end: u64) -> HopRecord
    requires { start < END }
    ensures { result ≡ record {
      arrival = record { 0 = arrival };
      verdict = Eligible (record { 0 = arrival });
      sent = Some (record { 0 = start }, record { 0 = end });
    } }
{
    let mut hop = HopRecord::new(Ps(arrival), Verdict::Eligible(Ps(arrival)));
    hop.send(Ps(start), Ps(end));
    hop
}

// The two records from this place on.
fn span(first: u32) -> Span
    ensures { result ≡ record { first = first; leg = 0; count = 2; room = 2 } }
{
    Span {
        first,
        leg: 0,
        count: 2,
        room: 2,
    }
}

// The run of a frame that reaches its listener.
fn sent(rt: &(impl Abort + AllocGlobal), network: &Network) -> Run
    requires sender { 0 < length (senders_of network.now) }
    requires one_listener { length (legs_at network.now 0) ≡ 1 }
    requires path { length (sender_at network.now 0).ports ≡ 2 }
    ensures { All (IsJourney network.now) result }
{
    let rows = vec![in rt.alloc(); journey(1522, Ending::Sink(Ps(26_672_000)))].expect(rt, "room");
    let spans = vec![in rt.alloc(); span(0)].expect(rt, "room");
    let hops = vec![in rt.alloc();
        passing(0, 0, 12_336_000),
        passing(13_836_000, 13_836_000, 26_172_000),
    ]
    .expect(rt, "room");
    let firsts = vec![in rt.alloc(); 1].expect(rt, "room");
    Run::new(rows, spans, firsts, hops)
}

// The run of a frame that is too long, and one that would be eligible too late.
fn discarded(rt: &(impl Abort + AllocGlobal), network: &Network) -> Run
    requires sender { 0 < length (senders_of network.now) }
    requires one_listener { length (legs_at network.now 0) ≡ 1 }
    requires path { length (sender_at network.now 0).ports ≡ 2 }
    ensures { All (IsJourney network.now) result }
{
    let rows = vec![in rt.alloc();
        journey(1523, Ending::Discard),
        journey(64, Ending::Discard),
    ]
    .expect(rt, "room");
    let spans = vec![in rt.alloc(); span(0), span(2)].expect(rt, "room");
    let hops = vec![in rt.alloc();
        passing(0, 0, 12_344_000),
        HopRecord::new(Ps(13_844_000), Verdict::Size),
        passing(0, 12_344_000, 13_016_000),
        HopRecord::new(Ps(14_516_000), Verdict::Late(Ps(33_372_000))),
    ]
    .expect(rt, "room");
    let firsts = vec![in rt.alloc(); 2, 2].expect(rt, "room");
    Run::new(rows, spans, firsts, hops)
}

#[test]
fn prints_a_frame_that_arrives(rt: HostRuntime) {
    let Some(network) = line(rt.alloc()) else {
        panic!(rt; "no network");
    };
    assert!(rt; network.senders() == 2);
    assert!(rt; network.sender_legs(0) == 1);
    assert!(rt; network.sender_ports(0).len() == 2);
    let run = sent(&rt, &network);
    let text = departures(rt.alloc(), &network, &run).expect(&rt, "room");
    assert!(rt; text.as_slice() == SENT);
    let sums = [26_672_000u128];
    let text = report(rt.alloc(), &network, &run, Some(sums.as_slice())).expect(&rt, "room");
    assert!(rt; text.as_slice() == SENT_REPORT);
}

#[test]
fn captures_what_a_port_sent(rt: HostRuntime) {
    let Some(network) = line(rt.alloc()) else {
        panic!(rt; "no network");
    };
    assert!(rt; network.senders() == 2);
    assert!(rt; network.sender_legs(0) == 1);
    assert!(rt; network.sender_ports(0).len() == 2);
    let run = sent(&rt, &network);
    let capture = file(rt.alloc(), &network, &run, 2).expect(&rt, "room");
    assert!(rt; capture.as_slice() == CAPTURED);
    let capture = file(rt.alloc(), &network, &run, 1).expect(&rt, "room");
    assert!(rt; capture.as_slice() == HEADER);
}

#[test]
fn prints_frames_that_are_discarded(rt: HostRuntime) {
    let Some(network) = line(rt.alloc()) else {
        panic!(rt; "no network");
    };
    assert!(rt; network.senders() == 2);
    assert!(rt; network.sender_legs(0) == 1);
    assert!(rt; network.sender_ports(0).len() == 2);
    let run = discarded(&rt, &network);
    let text = departures(rt.alloc(), &network, &run).expect(&rt, "room");
    assert!(rt; text.as_slice() == DISCARDED);
    let text = report(rt.alloc(), &network, &run, None).expect(&rt, "room");
    assert!(rt; text.as_slice() == DISCARDED_REPORT);
}

#[test]
fn has_a_scheduler_at_the_bridge(rt: HostRuntime) {
    let Some(network) = line(rt.alloc()) else {
        panic!(rt; "no network");
    };
    let schedulers = Schedulers::new(rt.alloc(), &network).expect(&rt, "room");
    assert!(rt; schedulers.residences().len() == 32);
    assert!(rt; schedulers.residences()[..8] == [1_000_000; 8]);
    assert!(rt; schedulers.residences()[8..24] == [0; 16]);
    assert!(rt; schedulers.residences()[24..] == [1_000_000; 8]);
    assert!(rt; schedulers.members().len() == 1);
    assert!(rt; schedulers.members()[0].group == 6);
}
