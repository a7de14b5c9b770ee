//! The shares of all ports of a network.

ghost use Rattle.std.specs.Prelude.{◌<◌, length, slice_index_or, IfOk};
ghost use Rattle.ats_network.specs.Network.{senders_of};
ghost use Rattle.ats_certificate.specs.PortSums.{senders_at};
ghost use Rattle.ats_tally.specs.Shares.{AreSharesOf};
ghost use Rattle.ats_tally.specs.Tallies.{AreClassTallies};
ghost use Rattle.ats_admission_users.specs.Users.{ListsPaths};
ghost use Rattle.ats_admission_shares.specs.PortShares.{AreSharesBefore, stream_at, stream_paths, without_at};

use crate::at_port::tallies_entered;
use crate::leaving::leave_along;
use ats_admission_users::PortUsers;
use ats_class_table::{CLASSES, PortClassTable};
use ats_network::Network;
use ats_streams::Stream;
use ats_tally::{Share, Tally, enter_along, shares_of, tallies_at};
use std::alloc::{AllocError, Global};
use std::marker::Model;

/// What the senders of each class from 0 to 7 make at each port of a network. Contracts see the shares by port and
/// class, and say of which network they are (`AreSharesOf`).
#[derive(Drop)]
pub struct PortShares {
    shares: PortClassTable<Share>,
}

impl Model for PortShares {
    ghost use Rattle.ats_class_table.specs.Table.{Table};
    ghost use Rattle.ats_tally.specs.declared.share.Share.{Share};

    ghost Value = { Table Share };

    ghost view = { λ p. p.shares };
}

impl PortShares {
    /// The shares of a network. It takes time and memory linear in the number of ports and the number of
    /// the streams' ports. `AllocError` where memory runs out.
    pub fn new(alloc: Global, network: &Network) -> Result<Self, AllocError>
        ensures { IfOk result (AreSharesOf network.now) }
    {
        let shares = shares_of(alloc, network)?;
        Ok(PortShares { shares })
    }

    /// What the senders at a port make of each class from 1 to 7, at the class.
    pub fn tallies(&self, network: &Network, port: u32) -> [Tally; CLASSES]
        requires port { port < length network.now.topology.ports }
        requires shares { AreSharesOf network.now self.now }
        ensures { AreClassTallies (senders_at network.now.topology port (senders_of network.now)) result }
    {
        tallies_at(&self.shares, network, port)
    }

    /// What the senders make of each class from 1 to 7 at the port at one hop of a stream, counted from 0, where
    /// the shares are those of the network without this stream.
    pub fn tallies_with(&self, network: &Network, stream: u32, hop: u32) -> [Tally; CLASSES]
        requires stream { stream < length network.now.streams }
        requires hop { hop < length (stream_at network.now stream).ports }
        requires shares { AreSharesOf (without_at network.now stream) self.now }
        ensures { AreClassTallies
            (senders_at network.now.topology (slice_index_or (stream_at network.now stream).ports hop 0)
            (senders_of network.now)) result }
    {
        tallies_entered(&self.shares, network, stream, hop)
    }

    /// Counts the stream with this number, where the shares are those of the network without it. It takes no memory.
    pub fn enter(&mut self, network: &Network, stream: u32)
        requires stream { stream < length network.now.streams }
        requires shares { AreSharesOf (without_at network.now stream) self.old }
        ensures { AreSharesOf network.now self.new }
    {
        enter_stream(&mut self.shares, network, stream);
    }

    /// Takes out a stream that has left the network; `streams` lists the users of the network's ports by the ports of
    /// its streams since. It takes no memory.
    ///
    /// At each of its ports only the share of the stream's class there changes. Its frames are counted anew, over
    /// the users of the port, only where the stream had the longest or the shortest of them.
    pub fn leave(&mut self, network: &Network, stream: &Stream, streams: &PortUsers)
        requires users { ListsPaths (length network.now.topology.ports) (stream_paths network.now) streams.now }
        requires before { AreSharesBefore network.now stream.now self.old }
        ensures { AreSharesOf network.now self.new }
    {
        leave_along(&mut self.shares, network, stream, streams);
    }
}

// Counts the stream with this number, where it is not counted.
fn enter_stream(shares: &mut PortClassTable<Share>, network: &Network, stream: u32)
    requires stream { stream < length network.now.streams }
    requires shares { AreSharesOf (without_at network.now stream) shares.old }
    ensures { AreSharesOf network.now shares.new }
{
    let _rules = network.topology(); // for what a network keeps
    enter_along(shares, network, stream);
}
