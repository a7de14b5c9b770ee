//! More than one late stream, hop, frame, or admission, on closed examples.

ghost use Rattle.ats_number_examples.specs.Answered.{AnswersAreMeant};
ghost use Rattle.ats_number_examples.specs.Counted.{NumbersAreCounted};
ghost use Rattle.ats_number_examples.specs.Parts.{PremisesAreMeant};
ghost use Rattle.ats_number_examples.specs.Premises.{PremisesAreMet};
ghost use Rattle.ats_number_examples.specs.Told.{NumbersAreTold};

/// Each late stream and each hop at which a frame may have to stay too long counts; flows stay where a stream is
/// admitted.
pub fn numbers_are_counted()
    ensures { NumbersAreCounted }
{}

/// Each frame of a run is told of, and a spread by its earliest latency, also where that is 0.
pub fn numbers_are_told()
    ensures { NumbersAreTold }
{}

/// What the laws on printed texts ask is met: by the greatest number of 64 digits, by runs, by two networks that are
/// alike and not the same, and by answers.
pub fn premises_are_met()
    ensures { PremisesAreMet }
{}

/// What the law on answers asks of them: as many as requests, each with numbers of at most 64 digits, ports that are
/// there and names, and a reason for each of the seven classes where none will do.
pub fn answers_are_meant()
    ensures { AnswersAreMeant }
{}

/// A law: what it comes to, part by part and both ways, that a text can hold the times of a run and the numbers of a
/// report.
pub fn premises_are_meant()
    ensures { PremisesAreMeant }
{}
