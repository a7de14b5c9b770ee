//! Runs: whose a hop record is.

ghost use Rattle.std.specs.Prelude.{◌≡◌, length};

use ats_group::Verdict;
use ats_num::Ps;
use ats_trace::{Ending, HopRecord, Journey, Release, Run, Span};
use std::alloc::AllocGlobal;
use std::process::Abort;

// The record of a frame that was discarded for its size when it came.
fn discarded(arrival: u64) -> HopRecord {
    HopRecord::new(Ps(arrival), Verdict::Size)
}

// A frame that was discarded at its first hop.
fn journey() -> Journey {
    Journey {
        release: Release {
            at: Ps(0),
            sender: 0,
            octets: 1523,
        },
        ending: Ending::Discard,
    }
}

// The one record at this place.
fn at(place: u32) -> Span
    ensures place { result.first ≡ place }
    ensures count { result.count ≡ 1 }
{
    Span {
        first: place,
        leg: 0,
        count: 1,
        room: 1,
    }
}

// The run of two frames, where the record of the second stands first.
fn run(rt: &(impl Abort + AllocGlobal)) -> Run
    ensures { length result ≡ 2 }
{
    let journeys = vec![in rt.alloc(); journey(), journey()].expect(rt, "room");
    let spans = vec![in rt.alloc(); at(1), at(0)].expect(rt, "room");
    let hops = vec![in rt.alloc(); discarded(20), discarded(10)].expect(rt, "room");
    let firsts = vec![in rt.alloc(); 2, 2].expect(rt, "room");
    Run::new(journeys, spans, firsts, hops)
}

#[test]
fn tells_whose_a_record_is(rt: HostRuntime) {
    let run = run(&rt);
    assert!(rt; run.hops_of(0, 0) == [discarded(10)].as_slice());
    assert!(rt; run.hops_of(1, 0) == [discarded(20)].as_slice());
}
