//! What is proved of the definitions themselves.

ghost use Rattle.ats_csv.specs.Laws.{PlainReadsBack, MarkIsPassed};

/// The plain text of plain records reads as these records, also behind a byte order mark.
pub fn plain_reads_back()
    ensures text { PlainReadsBack }
    ensures mark { MarkIsPassed }
{}
