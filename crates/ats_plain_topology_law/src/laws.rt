//! What definitions of the lowest crates come to in plainer words, for all inputs.

ghost use Rattle.ats_plain_topology_law.specs.Declarations.{DeclarationsAreGiven};
ghost use Rattle.ats_plain_topology_law.specs.Keys.{KeysAreGiven};
ghost use Rattle.ats_plain_topology_law.specs.Leads.{LeadsAreGiven};
ghost use Rattle.ats_plain_topology_law.specs.Places.{PlacesAreGiven};
ghost use Rattle.ats_plain_topology_law.specs.Results.{ResultsAreGiven};
ghost use Rattle.ats_plain_topology_law.specs.Schedulers.{SchedulersAreGiven};
ghost use Rattle.ats_plain_topology_law.specs.Topologies.{TopologiesAreGiven};

/// What is made of a value that there may be, of a test, of a fault that there may be, and of one
/// step after another.
pub fn results_are_given()
    ensures { ResultsAreGiven }
{}

/// What the keys are that order frames which meet, which waits are drawn, and how many octets a
/// frame has.
pub fn keys_are_given()
    ensures { KeysAreGiven }
{}

/// At which place a name is found, at which a port by its nodes, and which ports leave a node.
pub fn places_are_given()
    ensures { PlacesAreGiven }
{}

/// What the ideal clock is, and which rate and burst a scheduler needs and lets out by any clock.
pub fn schedulers_are_given()
    ensures { SchedulersAreGiven }
{}

/// What a stream and a flow declare, and what a stream does with another class or burst.
pub fn declarations_are_given()
    ensures { DeclarationsAreGiven }
{}

/// At which places branches begin, which ports the trunk has, with which leg a branch stands, and
/// what legs are joined to.
pub fn leads_are_given()
    ensures { LeadsAreGiven }
{}

/// Which rates a link may have and at which nodes it ends, what a topology is made of, and what
/// stands past the end of its lists.
pub fn topologies_are_given()
    ensures { TopologiesAreGiven }
{}
