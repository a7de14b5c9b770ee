//! Least walks by searches that are kept.

ghost use Rattle.std.specs.Prelude.{◌≡◌, ◌<◌, ℕ, All, IfOk, IfSome, IfNone, IsSome, OnOk, length, None, Option};
ghost use Rattle.std.specs.Global.{Vec};
ghost use Rattle.ats_topology.specs.Topology.{IsTopology};
ghost use Rattle.ats_topology.specs.Walks.{IsLeastWalk, NoWalk, ArePorts};
ghost use Rattle.ats_topology.specs.KeptWalks.{AreKeptFor, kept_for};

use crate::topology::Topology;
use std::alloc::{AllocError, Global};

/// The searches that were made for walks of one topology, one for each node where a walk ended. For
/// each of these it keeps a number for each node.
#[derive(Drop)]
pub struct KeptWalks {
    kept: Vec<Option<Vec<Option<u32>>>>,
}

impl KeptWalks {
    /// No searches yet in this topology.
    ///
    /// # Errors
    ///
    /// `AllocError` where memory runs out.
    pub fn new(alloc: Global, topology: &Topology) -> Result<Self, AllocError>
        ensures { IfOk result (λ walks. AreKeptFor topology.now walks) }
    {
        let kept = nothing_kept(alloc, topology.nodes().len())?;
        Ok(KeptWalks { kept })
    }

    /// What `Topology::shortest` gives in this topology, with a search only at the first call for a
    /// node `b`.
    ///
    /// # Errors
    ///
    /// `AllocError` where memory runs out; the searches that were made stay.
    pub fn shortest(
        &mut self,
        alloc: Global,
        topology: &Topology,
        a: u32,
        b: u32,
    ) -> Result<Option<Vec<u32>>, AllocError>
        requires a { a < length topology.now.nodes }
        requires b { b < length topology.now.nodes }
        requires kept { AreKeptFor topology.now self.old }
        ensures walk { IfOk result (λ found. IfSome found (λ walk. IsLeastWalk topology.now.ports a b walk.items)) }
        ensures ports { IfOk result (λ found. IfSome found (λ walk. ArePorts topology.now.ports walk.items)) }
        ensures none { IfOk result (λ found. IfNone found (NoWalk topology.now.ports a b)) }
        ensures rules { OnOk result (IsTopology topology.now) }
        ensures kept { AreKeptFor topology.now self.new }
    {
        self.search(alloc, topology, b)?;
        let distances = self.kept[b as usize].as_ref().unwrap();
        topology.shortest_by(alloc, distances, a, b)
    }

    // Keeps the distances to a node, where they are not kept yet.
    fn search(&mut self, alloc: Global, topology: &Topology, to: u32) -> Result<(), AllocError>
        requires to { to < length topology.now.nodes }
        requires kept { AreKeptFor topology.now self.old }
        ensures kept { AreKeptFor topology.now self.new }
        ensures there { OnOk result (IsSome (kept_for self.new to)) }
    {
        if self.kept[to as usize].is_some() {
            return Ok(());
        }
        let distances = topology.distances(alloc, to)?;
        self.kept[to as usize] = Some(distances);
        Ok(())
    }
}

fn nothing_kept(alloc: Global, nodes: usize) -> Result<Vec<Option<Vec<Option<u32>>>>, AllocError>
    ensures count { IfOk result (λ kept. length kept.items ≡ nodes) }
    ensures nothing { IfOk result (λ kept. All (λ (one : Option (Vec (Option ℕ))). one ≡ None) kept.items) }
{
    let mut kept = Vec::with_capacity(alloc, nodes)?;
    for _ in 0..nodes {
        kept.push(None)?;
    }
    Ok(kept)
}
