//! What is proved of the port before another one, and of rates and bursts from one to the next.

ghost use Rattle.ats_route_law.specs.Laws.{PortBeforeIsOne, RatesGoHopByHop};

/// A law: the port before the one at a hop of a leg is the one in front of it in the leg; before the first of a branch
/// it is the one that leads to where the branch begins, and before the first of the trunk there is none, nor before
/// that of a branch at the talker.
pub fn port_before_is_one()
    ensures { PortBeforeIsOne }
{}

/// A law: what comes of a sender to a port is what its scheduler behind the port before lets through by the clock of
/// that bridge; and to a port with none before it comes what its talker sends.
pub fn rates_go_hop_by_hop()
    ensures { RatesGoHopByHop }
{}
