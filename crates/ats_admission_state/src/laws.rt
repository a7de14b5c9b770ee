//! What is proved of the definitions themselves.

ghost use Rattle.ats_admission_state.specs.Laws.{BoundsStayBeside};

/// A law: beside the ports of a stream, the least bounds of a network are the same with the stream and without it.
pub fn bounds_stay_beside()
    ensures { BoundsStayBeside }
{}
