//! What is proved of the definitions themselves.

ghost use Rattle.ats_schedulers.specs.Laws.{SchedulersAreApart};

/// A law: different hops of streams have different schedulers.
pub fn schedulers_are_apart()
    ensures { SchedulersAreApart }
{}
