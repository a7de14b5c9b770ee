//! What is proved of the definitions themselves, for all lists.

ghost use Rattle.ats_lrq.specs.Laws.{EachFrameIsAStep, EachFrameKeepsTheRest, EachGroupIsAFold, OpenedIsFirst};
ghost use Rattle.ats_lrq.specs.Laws.{EligibilityTimeIsLeast};

/// The computed eligibility time is the least that the definition allows.
pub fn eligibility_time_is_least()
    ensures { EligibilityTimeIsLeast }
{}

/// A frame's verdict is the one of its member's group, which takes one step of the fold over that group; every other
/// group stays as it is.
pub fn each_frame_is_a_step()
    ensures { EachFrameIsAStep }
{}

/// A frame changes neither the residences nor the members, and lawful groups stay lawful.
pub fn each_frame_keeps_the_rest()
    ensures { EachFrameKeepsTheRest }
{}

/// Each group of opened groups is at the fold's first state.
pub fn opened_is_first()
    ensures { OpenedIsFirst }
{}

/// After any frames to any groups, each group's verdicts and its state are those of the fold over its own frames.
pub fn each_group_is_a_fold()
    ensures { EachGroupIsAFold }
{}
