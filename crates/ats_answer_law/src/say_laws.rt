//! What an answer to each command says, by its status, and which file fails where it is told so.

ghost use Rattle.ats_answer_law.specs.BoundSays.{BoundAnswersAreMeant};
ghost use Rattle.ats_answer_law.specs.DueMeaning.{DuesAreMeant};
ghost use Rattle.ats_answer_law.specs.FileFaults.{FileFaultsAreMeant};
ghost use Rattle.ats_answer_law.specs.FirstCauses.{FirstCausesAreMeant};
ghost use Rattle.ats_answer_law.specs.Places.{PlacesAreMeant};
ghost use Rattle.ats_answer_law.specs.RunSays.{RunAnswersAreMeant};
ghost use Rattle.ats_answer_law.specs.SameTexts.{SameTextsAreMeant};

/// Each law of an answer that is due, in the words of what it says of the bytes that are told.
pub fn dues_are_meant()
    ensures { DuesAreMeant }
{}

/// Each part of what an answer says to a command that runs frames, makes them or judges a schedule.
pub fn run_answers_are_meant()
    ensures { RunAnswersAreMeant }
{}

/// Each part of what an answer says to a command that bounds, checks, admits or shows.
pub fn bound_answers_are_meant()
    ensures { BoundAnswersAreMeant }
{}

/// Which file of each command fails, and with which line.
pub fn file_faults_are_meant()
    ensures { FileFaultsAreMeant }
{}

/// What is the same where two texts are.
pub fn same_texts_are_meant()
    ensures { SameTextsAreMeant }
{}

/// Which place, row or stream each reason against a network and each refusal of rows names first, and what the number
/// is that is told of it: part by part, and for all networks.
pub fn first_causes_are_meant()
    ensures { FirstCausesAreMeant }
{}

/// Where each setting of a network stands among the others, and at which port frames that are together at a port are
/// counted.
pub fn places_are_meant()
    ensures { PlacesAreMeant }
{}
