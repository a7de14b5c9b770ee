//! What the words of a line write.

ghost use Rattle.std.specs.Prelude.{◌≡◌, ◌<◌};
ghost use Rattle.ats_num.specs.Name.{name_of};
ghost use Rattle.ats_num.specs.Number.{number_of};
ghost use Rattle.ats_io.specs.Text.{words_of};
ghost use Rattle.ats_num.specs.Failure.{or_fault};
ghost use Rattle.ats_words.specs.Words.{word};

use crate::fault::ShapeFault;
use ats_num::{Name, number};
use ats_words::WordLine;
use ats_words::word_line::KEPT_WORDS;

/// The name that a word of line `n` writes.
pub(crate) fn named(n: u32, line: &WordLine, place: usize) -> Result<Name, ShapeFault>
    requires { place < KEPT_WORDS }
    ensures { result ≡ or_fault (ShapeFault.BadLine n) (name_of (word (words_of line.now) place)) }
{
    Name::new(line.word(place)).ok_or(ShapeFault::BadLine(n))
}

/// The number that a word of line `n` writes.
pub(crate) fn numbered(n: u32, line: &WordLine, place: usize) -> Result<u128, ShapeFault>
    requires { place < KEPT_WORDS }
    ensures { result ≡ or_fault (ShapeFault.BadLine n) (number_of (word (words_of line.now) place)) }
{
    number(line.word(place)).ok_or(ShapeFault::BadLine(n))
}
