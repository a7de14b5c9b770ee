//! What is proved of the definitions themselves.

ghost use Rattle.ats_settings.specs.Laws.{SchedulersAreTold};

/// A law: the setting at each port by which a stream goes on from a bridge tells the scheduler that judges its frames
/// there: its group, by the port of reception and the class there, its rate, its burst and its residence. For a leg and
/// the branches that begin beside it this is one scheduler.
pub fn schedulers_are_told()
    ensures { SchedulersAreTold }
{}
