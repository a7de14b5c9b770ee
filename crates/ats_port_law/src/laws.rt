//! What is proved of one port, for all lists of transmissions.

ghost use Rattle.ats_port_law.specs.PortLaw.{PortLaw, PortLawBy};

/// Where a row covers a port and a class that some stream uses, as each row of a certificate does,
/// and the port keeps the port rule with transmissions that it may be asked to make, each frame of
/// the class arrives behind the port within the row's bound of its eligibility. The frames of each
/// stream, of lower classes too, have declared sizes and conform to the rate and burst that the
/// port sees of it; those of a flow have declared sizes, and nothing else is asked of them. Nothing
/// is asked of the order in which the port takes equal frames.
pub fn port_law()
    ensures { PortLaw }
{}

/// The same where the port chooses by the times that its node's clock told frames, of which two may
/// be the other way round than the times at which they became eligible: what counts before a frame
/// is then what was told no later, and that is no more than what the port sees of its stream.
pub fn port_law_by_told_times()
    ensures { PortLawBy }
{}
