//! Whether the clocks of nodes are ideal.

ghost use Rattle.std.specs.Prelude.{◌↔◌, IsTrue};
ghost use Rattle.ats_topology.specs.Topology.{AreIdeal};

use crate::node::Node;

/// Whether each of these nodes goes by the ideal clock.
pub(crate) fn have_ideal_clocks(nodes: &[Node]) -> bool
    ensures { IsTrue result ↔ AreIdeal nodes.now }
{
    for node in nodes {
        if !node.kind.has_ideal_clock() {
            return false;
        }
    }
    true
}
