//! The delays that a certificate gives the streams of a network.

ghost use Rattle.std.specs.Prelude.{◌≡◌, ◌≢◌, ◌<◌, ◌≤◌, ◌++◌, length, slice_index_or, All, AllPairs, IfOk, OnOk};
ghost use Rattle.ats_streams.specs.Branches.{leg_at, routes_of};
ghost use Rattle.ats_network.specs.Edits.{no_stream};
ghost use Rattle.ats_network.specs.Network.{IsNetwork};
ghost use Rattle.ats_certificate.specs.Certificate.{bound_on, sums_of};
ghost use Rattle.ats_tally.specs.Bounds.{rows_at};
ghost use Rattle.ats_tally.specs.Delays.{rows_for, sums_for};

use crate::bounds::Bounds;
use ats_certificate::Certificate;
use ats_network::Network;
use ats_streams::Stream;
use std::alloc::{AllocError, Global};
use std::marker::Model;

/// The bounds that a certificate gives the streams of a network at each hop, and for each listener their sum along the
/// route there. Contracts see the network and the certificate's rows.
#[derive(Drop)]
pub struct Delays<'a> {
    network: &'a Network,
    bounds: Bounds<'a>,
    sums: Vec<u128>,
}

impl<'a> Model for Delays<'a> {
    ghost use Rattle.ats_tally.specs.Delays.{AreDelays, NetworkRows, rows_for};

    ghost Value = { NetworkRows };

    ghost view = { λ d. rows_for d.network.now d.bounds.rows };

    ghost invariant = { λ d. AreDelays d.network.now d.bounds d.sums.items };
}

impl<'a> Delays<'a> {
    /// The delays by a certificate. It takes time and memory linear in the numbers of ports and rows and the sum of the
    /// routes' lengths. `AllocError` where there is no memory for them.
    pub fn new(
        alloc: Global,
        network: &'a Network,
        certificate: &'a Certificate,
    ) -> Result<Self, AllocError>
        ensures { IfOk result (λ delays. delays ≡ rows_for network.now certificate.now) }
    {
        let bounds = Bounds::new(alloc, network.topology(), certificate)?;
        let sums = sums_along(alloc, network, &bounds)?;
        Ok(Delays {
            network,
            bounds,
            sums,
        })
    }

    /// The network.
    pub fn network(&self) -> &Network
        ensures value { result.now ≡ self.now.network }
        ensures rules { IsNetwork self.now.network }
    {
        self.network
    }

    /// The bounds at the network's ports.
    pub fn bounds(&self) -> &Bounds<'a>
        ensures { result.now ≡ rows_at (length self.now.network.topology.ports) self.now.rows }
    {
        &self.bounds
    }

    /// The sum, in picoseconds, of the bounds along the route to a stream's listener, that of one leg counted from 0.
    pub fn along(&self, stream: u32, leg: u32) -> u128
        requires stream { stream < length self.now.network.streams }
        requires leg { leg ≤ length (slice_index_or self.now.network.streams stream no_stream).branches }
        ensures value { result ≡ bound_on self.now.rows (slice_index_or self.now.network.streams stream no_stream)
            (leg_at (routes_of (slice_index_or self.now.network.streams stream no_stream).ports
            (slice_index_or self.now.network.streams stream no_stream).branches) leg) }
        ensures rules { IsNetwork self.now.network }
    {
        self.bounds
            .along(&self.network.streams()[stream as usize], leg)
    }

    /// The sum of the bounds for each listener, stream by stream, in picoseconds.
    pub fn sums(&self) -> &[u128]
        ensures { result.now ≡ sums_for self.now.network self.now.rows }
    {
        self.sums.as_slice()
    }
}

// The sum of the bounds for each listener, stream by stream.
fn sums_along(alloc: Global, network: &Network, bounds: &Bounds) -> Result<Vec<u128>, AllocError>
    requires { bounds.now.ports ≡ length network.now.topology.ports }
    ensures { IfOk result (λ sums. sums.items ≡ sums_for network.now bounds.now.rows) }
{
    let streams = network.streams();
    let mut sums = Vec::with_capacity(alloc, streams.len())?;
    for stream in streams {
        push_sums(&mut sums, bounds, stream)?;
    }
    Ok(sums)
}

// Adds the sum for each listener of a stream.
fn push_sums(sums: &mut Vec<u128>, bounds: &Bounds, stream: &Stream) -> Result<(), AllocError>
    requires ports { All (λ p. p < bounds.now.ports) stream.now.ports }
    requires apart { AllPairs (λ p q. p ≢ q) stream.now.ports }
    ensures { OnOk result (sums.new.items ≡ sums.old.items ++ sums_of bounds.now.rows stream.now) }
{
    for leg in 0..stream.legs() {
        sums.push(bounds.along(stream, leg))?;
    }
    Ok(())
}
