//! Runs of the engine: of two frames in three orders, and of a thousand over eight bridges and over a fork.

ghost use Rattle.std.specs.Prelude.{◌<◌, length};
ghost use Rattle.ats_trace.specs.Releases.{AreReleases, HaveFewPorts};

use ats_engine::Engine;
use ats_events::{Down, Scrambled, TimeOrder, Up};
use ats_fixtures::lines::{long_line, pair};
use ats_fixtures::trees::fork;
use ats_gen::schedule;
use ats_network::Network;
use ats_num::{Drawn, Early, Greatest, Late, Least, Mixed, Pace, Ps, Tie};
use ats_schedule::read_schedule;
use ats_trace::{Ending, Release, Run};
use std::alloc::AllocGlobal;
use std::process::Abort;

// Two frames of 672 wire bits, of two streams of one class.
const BOTH: &[u8] = b"at_ps,sender,octets\n0,a,64\n0,b,64\n";

// The releases of a schedule.
fn released(rt: &(impl Abort + AllocGlobal), network: &Network) -> Vec<Release>
    ensures releases { AreReleases network.now result.items }
    ensures few_ports { HaveFewPorts network.now result.items }
{
    match read_schedule(rt.alloc(), BOTH, network) {
        Ok(releases) => releases,
        Err(_) => panic!(rt; "no schedule"),
    }
}

// The first thousand releases from a seed.
fn made(rt: &(impl Abort + AllocGlobal), network: &Network) -> Vec<Release>
    ensures releases { AreReleases network.now result.items }
    ensures few_ports { HaveFewPorts network.now result.items }
{
    match schedule(rt.alloc(), network, 1, 1000) {
        Ok(releases) => releases,
        Err(_) => panic!(rt; "no schedule"),
    }
}

// The run of these releases by a tie, an order of moments and a pace.
fn run_by<T: Tie, O: TimeOrder, P: Pace>(
    rt: &(impl Abort + AllocGlobal),
    network: &Network,
    releases: &[Release],
    tie: T,
    order: O,
    pace: P,
) -> Run
    requires releases { AreReleases network.now releases.now }
    requires few_ports { HaveFewPorts network.now releases.now }
{
    Engine::open(rt.alloc(), network, releases, tie, order, pace)
        .expect(rt, "room")
        .run()
}

// Whether these are the times at which two frames reach their listener.
fn arrive_at(run: &Run, first: u64, second: u64) -> bool {
    let rows = run.journeys();
    rows.len() == 2
        && rows[0].ending == Ending::Sink(Ps(first))
        && rows[1].ending == Ending::Sink(Ps(second))
}

// Each frame takes 672,000 ps on each link, 500,000 ps of propagation, and 200,000 to 1,000,000 ps in the bridge.
#[test]
fn runs_two_frames_in_three_orders(rt: HostRuntime) {
    let Some(network) = pair(rt.alloc()) else {
        panic!(rt; "no network");
    };
    let releases = released(&rt, &network);
    let run = run_by(&rt, &network, &releases, Early, Up, Least);
    assert!(rt; arrive_at(&run, 2_544_000, 3_216_000));
    let run = run_by(&rt, &network, &releases, Late, Down, Greatest);
    assert!(rt; arrive_at(&run, 4_016_000, 3_344_000));
    let run = run_by(&rt, &network, &releases, Mixed(1), Scrambled(1), Drawn(1));
    assert!(rt; arrive_at(&run, 3_216_001, 2_544_000));
}

// Whether a frame has a leg for each of these numbers, went through so many ports along it, and arrived.
fn is_there(run: &Run, frame: u32, ports: &[usize]) -> bool
    requires { frame < length run.now }
{
    if run.legs(frame) as usize != ports.len() {
        return false;
    }
    for (leg, count) in ports.iter().enumerate() {
        if run.hops_of(frame, leg as u32).len() != *count {
            return false;
        }
        if run.ending_of(frame, leg as u32) == Ending::Discard {
            return false;
        }
    }
    true
}

// Whether there are so many frames, and each went through so many ports along each of its legs, and arrived.
fn are_all_there(run: &Run, frames: usize, ports: &[usize]) -> bool {
    for frame in 0..run.len() as u32 {
        if !is_there(run, frame, ports) {
            return false;
        }
    }
    run.len() == frames
}

#[test]
fn runs_a_thousand_frames_over_eight_bridges(rt: HostRuntime) {
    let Some(network) = long_line(rt.alloc()) else {
        panic!(rt; "no network");
    };
    let releases = made(&rt, &network);
    let run = run_by(&rt, &network, &releases, Mixed(7), Scrambled(7), Drawn(7));
    assert!(rt; are_all_there(&run, 1000, &[9]));
}

#[test]
fn runs_a_thousand_frames_over_a_fork(rt: HostRuntime) {
    let Some(network) = fork(rt.alloc()) else {
        panic!(rt; "no network");
    };
    let releases = made(&rt, &network);
    let run = run_by(&rt, &network, &releases, Mixed(7), Scrambled(7), Drawn(7));
    assert!(rt; are_all_there(&run, 1000, &[2, 1]));
}
