//! Transmissions of one port, and what the port law asks of them.

ghost use Rattle.ats_examples.specs.Ports.{AtOnce, BehindFlow, InClasses, InTurn};
ghost use Rattle.ats_examples.specs.Premises.{ConformingCounts, PortRuleCounts, SizesCount, StreamsCount};

/// What the law asks cannot be left out: where a port idles beside an eligible frame, a stream sends more than its
/// burst, a flow a longer frame than it declares, or a row is for flows alone, a frame comes later than its bound,
/// though all else that the law asks holds.
pub fn premises_count()
    ensures port_rule { PortRuleCounts }
    ensures conforming { ConformingCounts }
    ensures sizes { SizesCount }
    ensures streams { StreamsCount }
{}

/// Worked rows, in which what the law asks holds: a frame behind one of a flow, at a station and at
/// a bridge; a frame that is alone at its station, at two stations; and the second of two equal
/// frames at a bridge. The last three arrive exactly at the bound. And a frame whose class at the
/// bridge is lower than at its station.
pub fn worked_rows()
    ensures behind_flow { BehindFlow }
    ensures at_once { AtOnce }
    ensures in_turn { InTurn }
    ensures in_classes { InClasses }
{}
