//! What is kept from one route to the next.

ghost use Rattle.std.specs.Prelude.{IfOk};
ghost use Rattle.ats_network_file.specs.KeptRoutes.{IsKeptFor};

use crate::kept_steps::KeptSteps;
use ats_topology::{KeptWalks, Topology};
use std::alloc::{AllocError, Global};

/// What was found for routes through one topology: the searches for least walks, and the steps of
/// paths.
#[derive(Drop)]
pub(crate) struct KeptRoutes {
    pub(crate) walks: KeptWalks,
    pub(crate) steps: KeptSteps,
}

impl KeptRoutes {
    /// Nothing yet in this topology.
    pub(crate) fn new(alloc: Global, topology: &Topology) -> Result<Self, AllocError>
        ensures { IfOk result (IsKeptFor topology.now) }
    {
        let walks = KeptWalks::new(alloc, topology)?;
        let steps = KeptSteps::new(alloc)?;
        Ok(KeptRoutes { walks, steps })
    }
}
