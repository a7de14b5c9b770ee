//! The meters of all streams of a network.

ghost use Rattle.std.specs.Prelude.{List, IfOk};
ghost use Rattle.ats_trace.specs.declared.journey.Release.{Release};
ghost use Rattle.ats_conform.specs.Steps.{AreMeters};

use crate::meter::Meter;
use ats_network::Network;
use std::alloc::{AllocError, Global};

/// A meter for each stream of a network, which has taken none of the releases.
pub(crate) fn meters_for(alloc: Global, network: &Network) -> Result<Vec<Meter>, AllocError>
    ensures { IfOk result (λ meters. (releases : List Release) → AreMeters network.now releases 0 meters.items) }
{
    let streams = network.streams();
    let mut meters = Vec::with_capacity(alloc, streams.len())?;
    for stream in streams {
        meters.push(Meter::new(stream.rate(), stream.burst_bits()))?;
    }
    Ok(meters)
}
