//! What is kept of a network.

ghost use Rattle.std.specs.Prelude.{◌≡◌, ◌+◌, ◌<◌, length, All, None, IfOk, OnOk, OnErr};
ghost use Rattle.ats_num.specs.Failure.{Gives};
ghost use Rattle.ats_bound.specs.Least.{least_certificate};
ghost use Rattle.ats_bound.specs.Reason.{reason_of};
ghost use Rattle.ats_admission_shares.specs.PortShares.{stream_at, without_at};
ghost use Rattle.ats_admission_state.specs.Judged.{judged};
ghost use Rattle.ats_admission_state.specs.Kept.{IsKept, IsKeptBeside, WasKept};

use crate::entering::{enter, leave};
use crate::opening::{certified_bounds, stream_routes, stream_users};
use crate::routes::Route;
use crate::walks::{judge_stream, renew_path};
use ats_admission_shares::PortShares;
use ats_admission_users::PortUsers;
use ats_certificate::Certificate;
use ats_class_table::PortClassTable;
use ats_network::Network;
use ats_num::Failure;
use ats_streams::Stream;
use ats_tally::Reason;
use std::alloc::{AllocError, Global};
use std::marker::Model;

/// What is kept of a network that streams enter and leave: which streams use each port, what the senders of each class
/// make there, the least bound of each port and class, in picoseconds, and the route of each stream. Contracts see
/// these four. Besides each route has a spare, so that most are not summed up to see that they are not late.
#[derive(Drop)]
pub struct Kept {
    alloc: Global,
    streams: PortUsers,
    shares: PortShares,
    bounds: PortClassTable<u128>,
    routes: Vec<Route>,
    spares: Vec<u64>,
}

impl Model for Kept {
    ghost use Rattle.ats_admission_state.specs.Kept.{KeptState, kept_state};
    ghost use Rattle.ats_admission_state.specs.Spares.{AreSpares};

    ghost Value = { KeptState };

    ghost view = { λ k. kept_state k.streams k.shares k.bounds k.routes.items };

    ghost invariant = { λ k. AreSpares k.bounds k.routes.items k.spares.items };
}

impl Kept {
    /// What is kept of a network with this least certificate. It takes time and memory linear in the number of ports
    /// and the number of the streams' ports. `AllocError` where memory runs out.
    pub fn new(
        alloc: Global,
        network: &Network,
        certificate: &Certificate,
    ) -> Result<Self, AllocError>
        requires certificate { certificate.now ≡ least_certificate network.now }
        ensures { IfOk result (λ kept. IsKept network.now kept) }
    {
        let streams = stream_users(alloc, network)?;
        let shares = PortShares::new(alloc, network)?;
        let routes = stream_routes(alloc, network)?;
        let bounds = certified_bounds(alloc, network, certificate)?;
        let spares = vec![in alloc; 0u64; routes.len()]?;
        Ok(Kept {
            alloc,
            streams,
            shares,
            bounds,
            routes,
            spares,
        })
    }

    /// Judges a network by its last stream, of which nothing is kept yet, and without which a certificate holds: only
    /// the stream's own ports are judged anew, and only the deadlines of streams that use one of these, for each of
    /// their listeners. Where nothing stands against the network, the stream is kept from now on. The sum of its least
    /// bounds for its first listener, in picoseconds.
    ///
    /// # Errors
    ///
    /// The reason against the network exactly where there is one, or `Failure::NoMemory` where memory runs out. The
    /// bounds along its ports then are any; all else is still that of the network without the stream.
    pub fn judge(&mut self, network: &Network, stream: u32) -> Result<u128, Failure<Reason>>
        requires last { stream + 1 ≡ length network.now.streams }
        requires free { reason_of (without_at network.now stream) ≡ None }
        requires beside { IsKeptBeside (without_at network.now stream) (stream_at network.now stream).ports self.old }
        ensures answer { Gives result (judged network.now stream) }
        ensures ok { OnOk result (IsKept network.now self.new) }
        ensures err { OnErr result (IsKeptBeside (without_at network.now stream)
            (stream_at network.now stream).ports self.new) }
    {
        let own = Route::of(self.alloc, &network.streams()[stream as usize])?;
        let judged = judge_stream(
            &mut self.bounds,
            &mut self.spares,
            network,
            &self.streams,
            &self.shares,
            &self.routes,
            stream,
            &own,
        );
        let sum = match judged {
            Ok(sum) => sum,
            Err(reason) => return Err(Failure::Fault(reason)),
        };
        enter(
            &mut self.streams,
            &mut self.shares,
            &mut self.routes,
            &mut self.spares,
            network,
            stream,
            own,
        )?;
        Ok(sum)
    }

    /// Keeps this stream no longer, which was taken out of the network where it had this number, and makes the bounds
    /// along its ports anew. It takes no memory.
    pub fn take(&mut self, network: &Network, number: u32, stream: &Stream)
        requires free { reason_of network.now ≡ None }
        requires was { WasKept network.now number stream.now self.old }
        ensures { IsKept network.now self.new }
    {
        leave(
            &mut self.streams,
            &mut self.shares,
            &mut self.routes,
            &mut self.spares,
            network,
            number,
            stream,
        );
        renew_path(
            &mut self.bounds,
            &mut self.spares,
            network,
            &self.streams,
            &self.shares,
            stream.ports(),
        );
    }

    /// Makes the bounds along a path anew, where no certificate is refused for the network. It takes no memory.
    pub fn renew(&mut self, network: &Network, path: &[u32])
        requires free { reason_of network.now ≡ None }
        requires ports { All (λ p. p < length network.now.topology.ports) path.now }
        requires beside { IsKeptBeside network.now path.now self.old }
        ensures { IsKept network.now self.new }
    {
        renew_path(
            &mut self.bounds,
            &mut self.spares,
            network,
            &self.streams,
            &self.shares,
            path,
        );
    }
}
