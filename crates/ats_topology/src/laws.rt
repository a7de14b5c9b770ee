//! What is proved of the definitions and the limits themselves.

ghost use Rattle.std.specs.Prelude.{◌≡◌};
ghost use Rattle.ats_topology.specs.Laws.{LeastWalkIsOne, FirstIsLeast, TopologyTellsPorts};
ghost use Rattle.ats_topology.specs.declared.node.TheConstants.{MAX_NODES, MAX_PROCESSING_NS, MAX_RESIDENCE_NS};
ghost use Rattle.ats_topology.specs.declared.link.TheConstants.{MAX_LINKS, MAX_PROPAGATION_NS};

/// A law: between two nodes there is at most one least walk.
pub fn least_walk_is_one()
    ensures { LeastWalkIsOne }
{}

/// A law: the first number below another that passes a test passes it, and no number below it does;
/// where there is none, no number passes.
pub fn first_is_least()
    ensures { FirstIsLeast }
{}

/// A law: what the ports of a topology keep follows from its rules.
pub fn topology_tells_ports()
    ensures { TopologyTellsPorts }
{}

/// The limits that the definitions cite have these values.
pub fn constants_are()
    ensures nodes { MAX_NODES ≡ 1024 }
    ensures links { MAX_LINKS ≡ 2048 }
    ensures propagation { MAX_PROPAGATION_NS ≡ 1000000 }
    ensures processing { MAX_PROCESSING_NS ≡ 1000000 }
    ensures residence { MAX_RESIDENCE_NS ≡ 1000000000 }
{}
