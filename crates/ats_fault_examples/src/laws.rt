//! The words of each fault, and what is printed where a file has one.

ghost use Rattle.ats_fault_examples.specs.EachFault.{EachFaultIsWritten};
ghost use Rattle.ats_fault_examples.specs.Files.{FileFaultsAreWritten};
ghost use Rattle.ats_fault_examples.specs.Inputs.{InputsAreWritten, MakingIsRefused};
ghost use Rattle.ats_fault_examples.specs.Keys.{KeysAreNamed};
ghost use Rattle.ats_fault_examples.specs.Limits.{LimitsAreAllowed};
ghost use Rattle.ats_fault_examples.specs.Networks.{NetworkFaultsAreWritten};
ghost use Rattle.ats_fault_examples.specs.Numbers.{NumbersAreWithin};

/// The word of each table and of each key of a network file.
pub fn keys_are_named()
    ensures { KeysAreNamed }
{}

/// The words of each fault of a network file: of its form, of its nodes and links, and of its streams and flows.
pub fn network_faults_are_written()
    ensures { NetworkFaultsAreWritten }
{}

/// The words of each fault of certificates, schedules, request files, shape files and captures, and of the two causes
/// for which no releases are made.
pub fn file_faults_are_written()
    ensures { FileFaultsAreWritten }
{}

/// What is printed of a fault of each kind of file: `input`, the name of the file, and the words of its first fault.
pub fn inputs_are_written()
    ensures { InputsAreWritten }
{}

/// Networks for which no releases are made, and what is printed then; one frame less is made.
pub fn making_is_refused()
    ensures { MakingIsRefused }
{}

/// The least and greatest numbers of streams, flows, bridges and links, the rates of links and the bytes of names,
/// which are allowed, and those next to them, which are not.
pub fn limits_are_allowed()
    ensures { LimitsAreAllowed }
{}

/// The texts that write numbers, the longest of 36 digits, and those next to them, which write none; the 64 bytes that
/// names may have; and how many releases, streams and frames a file may declare, or a word may ask to be made.
pub fn numbers_are_within()
    ensures { NumbersAreWithin }
{}

/// A law: the words of each fault that has a number, a table, a key or a rule, whichever these are.
pub fn each_fault_is_written()
    ensures { EachFaultIsWritten }
{}
