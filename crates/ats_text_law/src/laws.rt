//! What is proved of the definitions themselves.

ghost use Rattle.ats_text_law.specs.Answers.{AdmissionIsTold, AnswersTellAll};
ghost use Rattle.ats_text_law.specs.Explained.{ExplainTellsAll};
ghost use Rattle.ats_text_law.specs.Laws.{AcceptedTellsAll, DeparturesTellAll, ReportTellsAll};

/// A law: over one network, the texts that `replay` prints of two runs are the same only where the runs are, record for
/// record along each leg of each frame, whatever stands behind the texts.
pub fn departures_tell_all()
    ensures { DeparturesTellAll }
{}

/// A law: over one network, the reports of `generate` on two runs are the same only where each sender has
/// for each of its listeners the same counts, the same longest time and the same bound in both.
pub fn report_tells_all()
    ensures { ReportTellsAll }
{}

/// A law: what `check` prints of two accepted certificates of one network is the same only where each
/// stream has the same bound at each of its ports, and for each listener the same sum, by both. So
/// the text has the bounds of every stream.
pub fn accepted_tells_all()
    ensures { AcceptedTellsAll }
{}

/// A law: over one topology, what `admit` prints of two lists of answers to the same requests is the same
/// only where the answers are: each class, sum, cause and reason.
pub fn answers_tell_all()
    ensures { AnswersTellAll }
{}

/// A law: so it is whatever stands behind both lists; and the whole text that `admit` prints tells
/// the answers, and how many streams there are at the end.
pub fn admission_is_told()
    ensures { AdmissionIsTold }
{}

/// A law: what `explain` prints of two networks over one topology, whose streams have the same names and
/// routes, is the same only where each stream has the same sums and deadline, and at each port the same
/// class and the same parts of its bound. Of the sender of the longest lower frame the text tells how it
/// is written: `-` stands for none, and for a sender of that name.
pub fn explain_tells_all()
    ensures { ExplainTellsAll }
{}
