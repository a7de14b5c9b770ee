//! What is proved of the definitions themselves, for all texts.

ghost use Rattle.ats_request_file.specs.FaultLaw.{EachFaultIsTheFirst, EachRequestIsRead};

/// A law: a text is refused with a fault exactly where a line that asks something has it, by its number and by how many
/// such lines stand before it, and no line before it has one.
pub fn each_fault_is_the_first()
    ensures { EachFaultIsTheFirst }
{}

/// A law: where a text makes requests, no line has a fault, and there is one request for each line that asks something.
pub fn each_request_is_read()
    ensures { EachRequestIsRead }
{}
