//! What the words of files come to in plainer words, for all inputs.

ghost use Rattle.ats_plain_file_law.specs.Asked.{RequestLinesAreRead};
ghost use Rattle.ats_plain_file_law.specs.Captures.{CaptureRecordsAreRead};
ghost use Rattle.ats_plain_file_law.specs.Cuts.{TextLinesAreRead};
ghost use Rattle.ats_plain_file_law.specs.Outside.{GoesOn};
ghost use Rattle.ats_plain_file_law.specs.Positions.{PositionsAreRead};
ghost use Rattle.ats_plain_file_law.specs.Reads.{FilesAreRead};
ghost use Rattle.ats_plain_file_law.specs.Reports.{ReportsAreTold};
ghost use Rattle.ats_plain_file_law.specs.Shapes.{ShapeLinesAreRead};
ghost use Rattle.ats_plain_file_law.specs.StreamFaults.{StreamFaultsAreCalled};
ghost use Rattle.ats_plain_file_law.specs.Tables.{TableHeadsAreRead};
ghost use Rattle.ats_plain_file_law.specs.Words.{LineWordsAreRead};

use ats_io::Files;

/// Of which bytes that is asked which is asked of a file, and which reads are one reading of it.
pub fn files_are_read()
    ensures { FilesAreRead }
{}

/// Into which lines a text is cut, by its first byte.
pub fn text_lines_are_read()
    ensures { TextLinesAreRead }
{}

/// Into which words a line is cut, by its first byte.
pub fn line_words_are_read()
    ensures { LineWordsAreRead }
{}

/// What the further lines of a shape file declare, by the first of them.
pub fn shape_lines_are_read()
    ensures { ShapeLinesAreRead }
{}

/// Which frame of a shape has no line, what a stream is that is not there, and on which verdicts
/// the other regulator reports.
pub fn reports_are_told()
    ensures { ReportsAreTold }
{}

/// What the further lines of a request file ask, by the first of them.
pub fn request_lines_are_read()
    ensures { RequestLinesAreRead }
{}

/// With which columns a certificate and a schedule begin, and what is read behind them.
pub fn table_heads_are_read()
    ensures { TableHeadsAreRead }
{}

/// What each record of a capture comes to at a station, one behind the other.
pub fn capture_records_are_read()
    ensures { CaptureRecordsAreRead }
{}

/// Where the bytes of a capture end, record by record, and what its file gives.
pub fn positions_are_read()
    ensures { PositionsAreRead }
{}

/// By which words the rules are called that a stream may break.
pub fn stream_faults_are_called()
    ensures { StreamFaultsAreCalled }
{}

/// When files go on from one state to another, of whichever kind they are.
pub fn outside_goes_on<F: Files>()
    ensures { GoesOn F.told F.faults }
{}
