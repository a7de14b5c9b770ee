//! Laws of the texts.

ghost use Rattle.ats_verdict_text.specs.Laws.{EachReasonIsInside};

/// A law: the port that the reason against a network names is a port of the network, as `write_reason` wants it.
pub fn each_reason_is_inside()
    ensures { EachReasonIsInside }
{}
