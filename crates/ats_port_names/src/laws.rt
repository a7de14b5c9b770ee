//! What is proved of the definitions themselves.

ghost use Rattle.ats_port_names.specs.Laws.{PortReadsBack};

/// In each topology, the port that is found by the name of a port is that port.
pub fn port_reads_back()
    ensures { PortReadsBack }
{}
