//! Routes between nodes, as the definitions compute them.

ghost use Rattle.std.specs.Prelude.{◌≡◌, ◌<◌, ℕ, IfOk, OnOk, length};
ghost use Rattle.std.specs.Global.{Vec};
ghost use Rattle.std.specs.Option.{option_map};
ghost use Rattle.ats_topology.specs.KeptWalks.{AreKeptFor};
ghost use Rattle.ats_topology.specs.Topology.{IsTopology};
ghost use Rattle.ats_network.specs.Shortest.{shortest_of};

use ats_topology::{KeptWalks, Topology};
use std::alloc::{AllocError, Global};

/// The ports of the walk from node `a` to node `b`, which are node numbers: of the walks of fewest ports the first in
/// lexicographic order of port numbers, and `None` exactly where no walk leads there. It is what `Topology::shortest`
/// gives.
///
/// # Errors
///
/// `AllocError` where memory runs out.
pub fn shortest(
    alloc: Global,
    topology: &Topology,
    a: u32,
    b: u32,
) -> Result<Option<Vec<u32>>, AllocError>
    requires a { a < length topology.now.nodes }
    requires b { b < length topology.now.nodes }
    ensures { IfOk result (λ found. option_map (λ (walk : Vec ℕ). walk.items) found ≡ shortest_of topology.now a b) }
{
    topology.shortest(alloc, a, b)
}

/// What `shortest` gives, by walks that are kept for this topology: there is a search only at the
/// first call for a node `b`.
///
/// # Errors
///
/// `AllocError` where memory runs out; the searches that were made stay.
pub fn shortest_kept(
    alloc: Global,
    topology: &Topology,
    walks: &mut KeptWalks,
    a: u32,
    b: u32,
) -> Result<Option<Vec<u32>>, AllocError>
    requires a { a < length topology.now.nodes }
    requires b { b < length topology.now.nodes }
    requires kept { AreKeptFor topology.now walks.old }
    ensures value { IfOk result
        (λ found. option_map (λ (walk : Vec ℕ). walk.items) found ≡ shortest_of topology.now a b) }
    ensures rules { OnOk result (IsTopology topology.now) }
    ensures kept { AreKeptFor topology.now walks.new }
{
    walks.shortest(alloc, topology, a, b)
}
