//! What is proved of the definitions themselves, for all numbers.

ghost use Rattle.ats_bucket.specs.Laws.{EligibilityTimeIsLeast};

/// The computed eligibility time is the least lawful one, at every rate of at least 1.
pub fn eligibility_time_is_least()
    ensures { EligibilityTimeIsLeast }
{}
