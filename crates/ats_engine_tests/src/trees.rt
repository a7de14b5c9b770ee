//! Runs of the engine over trees: what happens to the copies that bridges make.

ghost use Rattle.std.specs.Prelude.{◌<◌};
ghost use Rattle.ats_num.specs.declared.time.TheConstants.{END};

use ats_engine::Engine;
use ats_events::Up;
use ats_fixtures::trees::{crowded_fork, fork, fork_of_classes, tree};
use ats_group::Verdict;
use ats_network::Network;
use ats_num::{Early, Greatest, Ps};
use ats_schedule::read_schedule;
use ats_trace::{Ending, HopRecord, Run};
use std::alloc::AllocGlobal;
use std::process::Abort;

// A frame of the most octets that stream `a` declares, alone, and behind one of a flow; and one that is too long.
const ONE: &[u8] = b"at_ps,sender,octets\n0,a,1522\n";

const BEHIND: &[u8] = b"at_ps,sender,octets\n0,f,1522\n1,a,1522\n";

const TOO_LONG: &[u8] = b"at_ps,sender,octets\n0,a,1523\n";

// A frame of stream `a`, and more short ones of stream `z` at once than it declares.
const CROWD: &[u8] =
    b"at_ps,sender,octets\n0,a,1522\n0,z,64\n0,z,64\n0,z,64\n0,z,64\n0,z,64\n0,z,64\n0,z,64\n0,z,64\n\
    0,z,64\n0,z,64\n0,z,64\n0,z,64\n0,z,64\n0,z,64\n0,z,64\n0,z,64\n0,z,64\n0,z,64\n0,z,64\n0,z,64\n0,z,64\n0,z,64\n\
    0,z,64\n";

// Frames of two streams of one class, of which the short one holds up the one behind it.
const GROUPED: &[u8] = b"at_ps,sender,octets\n0,z,1522\n0,z,64\n0,a,1522\n";

// Two frames of stream `a`, of which a flow holds up the first.
const HELD_UP: &[u8] = b"at_ps,sender,octets\n0,f,1522\n1,a,1522\n123360001,a,1522\n";

// The run of a network for the releases of a schedule.
fn run_of(rt: &(impl Abort + AllocGlobal), network: Option<Network>, file: &[u8]) -> Run {
    let Some(network) = network else {
        panic!(rt; "no network");
    };
    let Ok(releases) = read_schedule(rt.alloc(), file, &network) else {
        panic!(rt; "no schedule");
    };
    Engine::open(rt.alloc(), &network, &releases, Early, Up, Greatest)
        .expect(rt, "room")
        .run()
}

// Whether a frame has so many legs.
fn has_legs(run: &Run, frame: u32, legs: u32) -> bool {
    if frame as usize >= run.len() {
        return false;
    }
    run.legs(frame) == legs
}

// Whether a frame has these records along a leg, and so its journey along it ended.
fn went(run: &Run, frame: u32, leg: u32, hops: &[HopRecord], ending: Ending) -> bool {
    if frame as usize >= run.len() {
        return false;
    }
    if leg >= run.legs(frame) {
        return false;
    }
    run.hops_of(frame, leg) == hops && run.ending_of(frame, leg) == ending
}

// The record of a frame that came at a time, became eligible at one, and was sent from one to another.
fn hop(arrival: u64, eligible: u64, start: u64, end: u64) -> HopRecord
    requires { start < END }
{
    let mut hop = HopRecord::new(Ps(arrival), Verdict::Eligible(Ps(eligible)));
    hop.send(Ps(start), Ps(end));
    hop
}

// The record of a frame that came at a time, and was discarded.
fn discarded(arrival: u64, verdict: Verdict) -> HopRecord {
    HopRecord::new(Ps(arrival), verdict)
}

// The end of a journey at a listener.
fn sink(at: u64) -> Ending {
    Ending::Sink(Ps(at))
}

#[test]
fn copies_a_frame_at_a_bridge(rt: HostRuntime) {
    let run = run_of(&rt, fork(rt.alloc()), ONE);
    let trunk: &[HopRecord] = &[
        hop(0, 0, 0, 12_336_000),
        hop(13_836_000, 13_836_000, 13_836_000, 26_172_000),
    ];
    assert!(rt; has_legs(&run, 0, 2));
    assert!(rt; went(&run, 0, 0, trunk, sink(26_672_000)));
    assert!(rt; went(&run, 0, 1, &trunk[1..], sink(26_672_000)));
}

#[test]
fn sends_a_copy_while_the_trunk_waits(rt: HostRuntime) {
    let run = run_of(&rt, fork(rt.alloc()), BEHIND);
    let trunk = [
        hop(1, 1, 1, 12_336_001),
        hop(13_836_001, 13_836_001, 26_172_000, 38_508_000),
    ];
    let copy = [hop(13_836_001, 13_836_001, 13_836_001, 26_172_001)];
    assert!(rt; has_legs(&run, 0, 1));
    assert!(rt; has_legs(&run, 1, 2));
    assert!(rt; went(&run, 1, 0, &trunk, sink(39_008_000)));
    assert!(rt; went(&run, 1, 1, &copy, sink(26_672_001)));
}

#[test]
fn discards_a_long_frame_for_each_listener(rt: HostRuntime) {
    let run = run_of(&rt, fork(rt.alloc()), TOO_LONG);
    let trunk: &[HopRecord] = &[
        hop(0, 0, 0, 12_344_000),
        discarded(13_844_000, Verdict::Size),
    ];
    assert!(rt; went(&run, 0, 0, trunk, Ending::Discard));
    assert!(rt; went(&run, 0, 1, &trunk[1..], Ending::Discard));
}

#[test]
fn discards_a_late_frame_for_each_listener(rt: HostRuntime) {
    let run = run_of(&rt, crowded_fork(rt.alloc()), CROWD);
    let last: &[HopRecord] = &[
        hop(0, 0, 14_784_000, 15_456_000),
        discarded(16_956_000, Verdict::Late(Ps(33_372_000))),
    ];
    let copy = [hop(16_284_000, 26_652_000, 26_652_000, 27_324_000)];
    assert!(rt; went(&run, 22, 1, &copy, sink(27_824_000)));
    assert!(rt; went(&run, 23, 0, last, Ending::Discard));
    assert!(rt; went(&run, 23, 1, &last[1..], Ending::Discard));
}

#[test]
fn judges_by_the_class_at_the_port_before(rt: HostRuntime) {
    let run = run_of(&rt, fork_of_classes(rt.alloc()), GROUPED);
    let short = [
        hop(0, 0, 12_336_000, 13_008_000),
        hop(14_508_000, 27_276_000, 27_276_000, 27_948_000),
    ];
    let long = [
        hop(0, 0, 13_008_000, 25_344_000),
        hop(26_844_000, 27_276_000, 27_276_000, 39_612_000),
    ];
    let copy = [hop(26_844_000, 27_276_000, 27_948_000, 40_284_000)];
    assert!(rt; went(&run, 1, 0, &short, sink(28_448_000)));
    assert!(rt; went(&run, 2, 0, &long, sink(40_112_000)));
    assert!(rt; went(&run, 2, 1, &copy, sink(40_784_000)));
}

#[test]
fn discards_behind_one_branching_and_before_another(rt: HostRuntime) {
    let run = run_of(&rt, tree(rt.alloc()), HELD_UP);
    let trunk: &[HopRecord] = &[
        hop(123_360_001, 123_360_001, 123_360_001, 135_696_001),
        hop(137_196_001, 137_196_001, 137_196_001, 149_532_001),
        discarded(151_032_001, Verdict::Late(Ps(163_368_000))),
    ];
    assert!(rt; has_legs(&run, 2, 4));
    assert!(rt; went(&run, 2, 0, trunk, Ending::Discard));
    assert!(rt; went(&run, 2, 1, &trunk[1..2], sink(150_032_001)));
    assert!(rt; went(&run, 2, 2, &trunk[2..], Ending::Discard));
    assert!(rt; went(&run, 2, 3, &[], Ending::Discard));
}
