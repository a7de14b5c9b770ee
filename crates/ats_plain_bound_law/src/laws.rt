//! What the words come to that say which bounds a network has, why it may have none, and how
//! requests are answered.

ghost use Rattle.ats_plain_bound_law.specs.Buffers.{BuffersAreReckoned};
ghost use Rattle.ats_plain_bound_law.specs.LeastRows.{LeastRowsAreReckoned};
ghost use Rattle.ats_plain_bound_law.specs.Parts.{PartsAreReckoned};
ghost use Rattle.ats_plain_bound_law.specs.Places.{PlacesAreReckoned};
ghost use Rattle.ats_plain_bound_law.specs.Reasons.{ReasonsAreReckoned};
ghost use Rattle.ats_plain_bound_law.specs.Requests.{RequestsAreReckoned};
ghost use Rattle.ats_plain_bound_law.specs.Sums.{SumsAreReckoned};

/// Which ports and classes have rows, in their order, which row is that of a place, and which is
/// the last.
pub fn places_are_reckoned()
    ensures { PlacesAreReckoned }
{}

/// Which frame of a lower class a class waits for at a port, and which of its own is the shortest.
pub fn sums_are_reckoned()
    ensures { SumsAreReckoned }
{}

/// What stands in the least row of a port and a class, and which rows make the least certificate.
pub fn least_rows_are_reckoned()
    ensures { LeastRowsAreReckoned }
{}

/// Why no certificate holds for a network: an overload, then too long a stay, then a stream that
/// is late; of each the first.
pub fn reasons_are_reckoned()
    ensures { ReasonsAreReckoned }
{}

/// Into which parts a bound is cut, which sender is named, what is told of the stay behind a port,
/// and what streams take of it.
pub fn parts_are_reckoned()
    ensures { PartsAreReckoned }
{}

/// Which buffer each row has, and when numbers are the peaks of rows in a run, both ways.
pub fn buffers_are_reckoned()
    ensures { BuffersAreReckoned }
{}

/// How each request is answered, and what is left by one that asks for the lowest class of a stream.
pub fn requests_are_reckoned()
    ensures { RequestsAreReckoned }
{}
