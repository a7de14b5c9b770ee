//! A run in one of the orders that a command may name.
#![tactic(auto)]

ghost use Rattle.std.specs.Prelude.{IfOk};
ghost use Rattle.ats_trace.specs.Releases.{AreReleases, HaveFewPorts};
ghost use Rattle.ats_trace.specs.Run.{HasReleases, IsRunBy};
ghost use Rattle.ats_command_input.specs.Order.{IsRunIn};

use ats_command_input::Order;
use ats_engine::Engine;
use ats_events::{Down, Scrambled, TimeOrder, Up};
use ats_network::Network;
use ats_num::{Drawn, Early, Greatest, Late, Least, Mixed, Pace, Tie};
use ats_trace::{Release, Run};
use std::alloc::{AllocError, Global};

/// A run of a network with exactly these releases, by the tie and the pace of the order. The ports of their frames are
/// together at most 3,200,000. `AllocError` where there is no memory for it.
pub fn run_in(
    alloc: Global,
    network: &Network,
    releases: &[Release],
    order: Order,
) -> Result<Run, AllocError>
    requires releases { AreReleases network.now releases.now }
    requires few_ports { HaveFewPorts network.now releases.now }
    ensures { IfOk result (λ run. IsRunIn order network.now releases.now run) }
{
    match order {
        Order::Early => run_by(alloc, network, releases, Early, Up, Least),
        Order::Late => run_by(alloc, network, releases, Late, Down, Greatest),
        Order::Mixed(n) => run_by(alloc, network, releases, Mixed(n), Scrambled(n), Drawn(n)),
    }
}

// A run by a tie, an order of moments and a pace.
fn run_by<T: Tie, O: TimeOrder, P: Pace>(
    alloc: Global,
    network: &Network,
    releases: &[Release],
    tie: T,
    order: O,
    pace: P,
) -> Result<Run, AllocError>
    requires releases { AreReleases network.now releases.now }
    requires few_ports { HaveFewPorts network.now releases.now }
    ensures by { IfOk result (λ run. IsRunBy (T.key tie) (P.wait pace) network.now run) }
    ensures releases { IfOk result (λ run. HasReleases releases.now run) }
{
    let engine = Engine::open(alloc, network, releases, tie, order, pace)?;
    Ok(engine.run())
}
