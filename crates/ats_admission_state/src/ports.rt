//! The least bounds at a port, and what is found there against a network.

ghost use Rattle.std.specs.Prelude.{◌≡◌, ◌<◌, ◌≤◌, length, None, Some, IfOk, IfErr, OnOk, OnErr};
ghost use Rattle.ats_class_table.specs.Table.{Sets};
ghost use Rattle.ats_network.specs.Network.{senders_of};
ghost use Rattle.ats_certificate.specs.PortSums.{senders_at};
ghost use Rattle.ats_tally.specs.Tallies.{AreClassTallies};
ghost use Rattle.ats_tally.specs.Tally.{IsTally};
ghost use Rattle.ats_bound.specs.Reason.{overload, reason_of};
ghost use Rattle.ats_admission_law.specs.Lowest.{found_at};
ghost use Rattle.ats_admission_law.specs.Near.{overstay_at};
ghost use Rattle.ats_admission_state.specs.Judging.{KeepsOthers, SetsBelow, given_at};
ghost use Rattle.ats_admission_state.specs.Kept.{least_bound};

use ats_bound::row_of;
use ats_class_table::{CLASSES, PortClassTable};
use ats_network::Network;
use ats_tally::{Reason, Tally, first_overstay};

/// Makes the bounds of a port anew, where the senders make so much of each class and no certificate is refused for the
/// network. Those of all other ports stay.
pub(crate) fn renew_port(
    bounds: &mut PortClassTable<u128>,
    network: &Network,
    port: u32,
    tallies: &[Tally; CLASSES],
)
    requires free { reason_of network.now ≡ None }
    requires port { port < length network.now.topology.ports }
    requires count { bounds.old.ports ≡ length network.now.topology.ports }
    requires tallies { AreClassTallies (senders_at network.now.topology port (senders_of network.now)) tallies.now }
    ensures { SetsBelow network.now port 8 bounds.old bounds.new }
{
    let _ = judge_port(bounds, network, port, tallies);
}

/// Makes the bounds of a port anew, where the senders make so much of each class. What is found at the port: the need
/// of residence, over the residence time behind the port, of the lowest class that has one.
///
/// # Errors
///
/// The overload of the lowest class that has one. Some bounds of the port then stay.
pub(crate) fn judge_port(
    bounds: &mut PortClassTable<u128>,
    network: &Network,
    port: u32,
    tallies: &[Tally; CLASSES],
) -> Result<Option<Reason>, Reason>
    requires port { port < length network.now.topology.ports }
    requires count { bounds.old.ports ≡ length network.now.topology.ports }
    requires tallies { AreClassTallies (senders_at network.now.topology port (senders_of network.now)) tallies.now }
    ensures stay { IfOk result (λ stay. stay ≡ found_at (overstay_at network.now) network.now port) }
    ensures fits { OnOk result (found_at (overload network.now) network.now port ≡ None) }
    ensures set { OnOk result (SetsBelow network.now port 8 bounds.old bounds.new) }
    ensures load { IfErr result (λ load. found_at (overload network.now) network.now port ≡ Some load) }
    ensures kept { KeepsOthers port bounds.old bounds.new }
{
    let mut stay = None;
    for class in 1..8 {
        match judge_class(bounds, network, port, class, tallies[class as usize]) {
            Ok(found) => stay = stay.or(found),
            Err(load) => return Err(load),
        }
    }
    Ok(stay)
}

// Makes the bound of a port and a class anew, of which the senders at the port make so much. The need of residence
// there, where it is over the residence time behind the port, or the overload as the error.
fn judge_class(
    bounds: &mut PortClassTable<u128>,
    network: &Network,
    port: u32,
    class: u8,
    tally: Tally,
) -> Result<Option<Reason>, Reason>
    requires port { port < length network.now.topology.ports }
    requires class_least { 1 ≤ class }
    requires class_most { class ≤ 7 }
    requires tally { IsTally class (senders_at network.now.topology port (senders_of network.now)) tally }
    requires count { bounds.old.ports ≡ length network.now.topology.ports }
    ensures stay { IfOk result (λ stay. stay ≡ given_at (overstay_at network.now) network.now port class) }
    ensures fits { OnOk result (given_at (overload network.now) network.now port class ≡ None) }
    ensures set { OnOk result (Sets port class (least_bound network.now port class) bounds.old bounds.new) }
    ensures load { IfErr result (λ load. given_at (overload network.now) network.now port class ≡ Some load) }
    ensures same { OnErr result (bounds.new ≡ bounds.old) }
{
    if tally.least.is_none() {
        bounds.set(port, class, 0);
        return Ok(None);
    }
    match row_of(network, port, class, tally) {
        Ok(row) => {
            bounds.set(port, class, row.bound);
            Ok(first_overstay(network, &[row]))
        }
        Err(load) => Err(Reason::Overloaded { port, class, load }),
    }
}
