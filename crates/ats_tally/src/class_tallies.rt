//! What all senders at a port make of each class, from what those of each class make.

ghost use Rattle.std.specs.Prelude.{◌≡◌, ◌<◌, ◌≤◌, sum_by, List, length, All};
ghost use Rattle.ats_network.specs.Class.{PortSender};
ghost use Rattle.ats_network.specs.Network.{senders_of};
ghost use Rattle.ats_certificate.specs.PortSums.{senders_at};
ghost use Rattle.ats_tally.specs.Shares.{AreShares, AreSharesOf, IsLimited};
ghost use Rattle.ats_tally.specs.Tallies.{AreClassTallies};

use crate::share::Share;
use crate::tally::{MAX_SENDERS, Tally};
use ats_class_table::{CLASSES, PortClassTable};
use ats_network::Network;

/// What the senders of a network make of each class from 1 to 7 at a port, at the class, from the shares of its ports.
pub fn tallies_at(shares: &PortClassTable<Share>, network: &Network, port: u32) -> [Tally; CLASSES]
    requires port { port < length network.now.topology.ports }
    requires shares { AreSharesOf network.now shares.now }
    ensures { AreClassTallies (senders_at network.now.topology port (senders_of network.now)) result }
{
    let _rules = network.topology(); // for what a network keeps
    tallies_of(shares.values_at(port))
}

/// What all senders make of each class from 1 to 7, at the class, from what those of each class make.
pub fn tallies_of(shares: &[Share]) -> [Tally; CLASSES]
    requires eight { length shares.now ≡ 8 }
    requires limits { All (IsLimited MAX_SENDERS) shares.now }
    ensures { (senders : List PortSender) → AreShares senders shares.now → All (λ s. s.class ≤ 7) senders
        → AreClassTallies senders result }
{
    let mut tallies = [Tally::new(); CLASSES];
    let mut above = rates(shares);
    let mut bursts = bursts(shares);
    let mut lower = 0;
    for class in 0..CLASSES {
        let own = shares[class];
        above -= own.rate;
        tallies[class] = Tally {
            above,
            equal: own.rate,
            bursts,
            lower,
            least: own.shortest,
        };
        bursts -= own.bursts;
        lower = lower.max(own.longest);
    }
    tallies
}

// The sum of the rates of at most eight classes.
fn rates(shares: &[Share]) -> u64
    requires few { length shares.now ≤ 8 }
    requires limits { All (IsLimited MAX_SENDERS) shares.now }
    ensures { result ≡ sum_by (λ s. s.rate) shares.now }
{
    let mut sum = 0;
    for share in shares {
        sum += share.rate;
    }
    sum
}

// The sum of the bursts of at most eight classes.
fn bursts(shares: &[Share]) -> u64
    requires few { length shares.now ≤ 8 }
    requires limits { All (IsLimited MAX_SENDERS) shares.now }
    ensures { result ≡ sum_by (λ s. s.bursts) shares.now }
{
    let mut sum = 0;
    for share in shares {
        sum += share.bursts;
    }
    sum
}
