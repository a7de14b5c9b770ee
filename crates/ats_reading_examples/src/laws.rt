//! How exactly files are read, on closed examples.

ghost use Rattle.ats_reading_examples.specs.Bytes.{CapturesHaveAllBits};
ghost use Rattle.ats_reading_examples.specs.Columns.{ColumnsAreExact};
ghost use Rattle.ats_reading_examples.specs.Cut.{TextsAreCut};
ghost use Rattle.ats_reading_examples.specs.EachLine.{LinesAreMeant};
ghost use Rattle.ats_reading_examples.specs.EachNumber.{NamesAndNumbersAreMeant};
ghost use Rattle.ats_reading_examples.specs.EachRecord.{RecordsAreMeant};
ghost use Rattle.ats_reading_examples.specs.EachText.{TextsAreDeclared};
ghost use Rattle.ats_reading_examples.specs.Fields.{FieldsAreExact};
ghost use Rattle.ats_reading_examples.specs.Keys.{KeysAreExact};
ghost use Rattle.ats_reading_examples.specs.Lines.{LinesAreRead};
ghost use Rattle.ats_reading_examples.specs.Paths.{RequestsGoLeastWays};
ghost use Rattle.ats_reading_examples.specs.Reads.{ReadsAreListed};
ghost use Rattle.ats_reading_examples.specs.Stored.{RecordsAreAsWritten};

/// A key that is nearly one of a table of a network file is unknown there, and so is each key of the other tables.
pub fn keys_are_exact()
    ensures { KeysAreExact }
{}

/// The numbers of a capture have all their bytes, in both orders.
pub fn captures_have_all_bits()
    ensures { CapturesHaveAllBits }
{}

/// A comment needs nothing behind its sign, nothing but a space parts words, and numbers may have up to 36 digits. Of
/// all words: a line of a request file asks something only where it begins with the word for that. Of all texts: a
/// fault of a shape file has the number of a line, and which it is, for lines of frames too.
pub fn lines_are_read()
    ensures { LinesAreRead }
{}

/// Of all topologies and texts: a stream that is asked for has the path that is the walk of fewest ports between the
/// two different stations that its line names, and a line has a path just where there is one.
pub fn requests_go_least_ways()
    ensures { RequestsGoLeastWays }
{}

/// Headers of tables of values that are nearly right are none; what is read as a number of a record or a line is the
/// number that it writes, with no needless 0 in front and never of no bytes.
pub fn fields_are_exact()
    ensures { FieldsAreExact }
{}

/// A file is read from its front and with no gap, and each read is listed, one that gives nothing or fails too.
pub fn reads_are_listed()
    ensures { ReadsAreListed }
{}

/// A header of a table of values has just the columns that are due, in their order: none behind them or before them,
/// and none too few.
pub fn columns_are_exact()
    ensures { ColumnsAreExact }
{}

/// A record of a capture has the octets that it says its frame had, also where it holds more bytes, and its fraction as
/// it stands, also from a second on.
pub fn records_are_as_written()
    ensures { RecordsAreAsWritten }
{}

/// A law: how any text is cut into lines, and any line into words, and which lines are passed over: those that begin
/// with a number sign, and those of spaces alone.
pub fn texts_are_cut()
    ensures { TextsAreCut }
{}

/// A law: which texts are names and which are numbers, and how many bits a frame has: nothing else is asked of them.
pub fn names_and_numbers_are_meant()
    ensures { NamesAndNumbersAreMeant }
{}

/// A law: what certificates and schedules declare, of all bytes, records and fields: a record names a port or a sender
/// by its name alone, and the first of its faults in one order is told.
pub fn records_are_meant()
    ensures { RecordsAreMeant }
{}

/// A law: what a line of a shape file and of a request file declares, of all words: each in its place, and no others.
pub fn lines_are_meant()
    ensures { LinesAreMeant }
{}

/// A law: what a shape file and a request file declare, line by line, of all texts.
pub fn texts_are_declared()
    ensures { TextsAreDeclared }
{}
