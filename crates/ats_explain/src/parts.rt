//! The parts of a bound.

ghost use Rattle.std.specs.Prelude.{◌≡◌, ◌<◌, ◌≤◌, ◌^◌, length};
ghost use Rattle.ats_certificate.specs.Form.{IsRow};
ghost use Rattle.ats_explain.specs.Parts.{is_over, parts_by, stay_behind};

use ats_certificate::Row;
use ats_network::Network;
use ats_num::Name;
use ats_num::time::PS_PER_NS;
use ats_tally::need_behind;
use ats_topology::Port;

/// What makes the least bound of a port and a class, in picoseconds: five parts, which add up to it.
#[derive(Clone, Copy)]
pub struct Parts {
    /// Waiting for one frame of a lower class or a flow that has begun: the longest that there is.
    pub lower: u128,
    /// The first sender whose longest frame that is; `None` where no sender is of a lower class.
    pub sender: Option<Name>,
    /// Waiting for bursts of the class and the higher ones.
    pub bursts: u128,
    /// The rest of the wait: what the rates of the higher classes add while these are sent.
    pub higher: u128,
    /// The transmission of the shortest frame of the class.
    pub frame: u128,
    /// The port's latency.
    pub latency: u128,
    /// The bound.
    pub bound: u128,
    /// The stay behind the port, where it leads to a bridge.
    pub stay: Option<Stay>,
}

/// A frame's stay behind a port that leads to a bridge, in picoseconds.
#[derive(Clone, Copy)]
pub struct Stay {
    /// How long it may have to be, as the bridge's clock counts it: the wait and the port's spread.
    pub need: u128,
    /// How long it may be: the bridge's maximum residence time.
    pub residence: u128,
}

impl Parts {
    /// The parts of a row's bound at its port, where this is the name of the sender of the longest lower frame, and
    /// this the stay behind the port.
    pub fn of(port: &Port, row: &Row, sender: Option<Name>, stay: Option<Stay>) -> Self
        requires ps { port.now.ps_per_bit ≤ 100000 }
        requires form { IsRow row.now }
        requires bursts { row.now.bursts ≤ 8192000000000 }
        ensures { result ≡ parts_by port.now row.now sender stay }
    {
        let ps = u128::from(port.ps_per_bit);
        let lower = ps * u128::from(row.lower);
        let bursts = ps * row.bursts.saturating_sub(u128::from(row.least));
        Parts {
            lower,
            sender,
            bursts,
            higher: row.wait.saturating_sub(lower + bursts),
            frame: ps * u128::from(row.least),
            latency: u128::from(port.latency.0),
            bound: row.bound,
            stay,
        }
    }

    /// Whether a frame may have to stay behind the port longer than it may.
    pub fn is_over(&self) -> bool
        ensures { result ≡ is_over self.now.stay }
    {
        match self.stay {
            Some(stay) => stay.residence < stay.need,
            None => false,
        }
    }
}

/// The stay behind a port, where a frame may have to wait so long at the port.
pub(crate) fn stay_behind(network: &Network, port: u32, wait: u128) -> Option<Stay>
    requires port { port < length network.now.topology.ports }
    requires wait { wait < 10 ^ 36 }
    ensures { result ≡ stay_behind network.now port wait }
{
    let residence_ns = network.residence(port)?;
    Some(Stay {
        need: need_behind(network, port, wait),
        residence: u128::from(PS_PER_NS) * u128::from(residence_ns),
    })
}
