//! What the words of a line write.

ghost use Rattle.std.specs.Prelude.{◌≡◌, ◌<◌};
ghost use Rattle.ats_io.specs.Text.{words_of};
ghost use Rattle.ats_request_file.specs.Words.{named, numbered};

use crate::fault::RequestFault;
use ats_num::{Name, number};
use ats_words::WordLine;
use ats_words::word_line::KEPT_WORDS;

/// The least number of more than 18 digits.
const PAST_DIGITS: u128 = 1_000_000_000_000_000_000;

/// The name that a word of line `n` writes.
pub(crate) fn named(n: u32, line: &WordLine, place: usize) -> Result<Name, RequestFault>
    requires { place < KEPT_WORDS }
    ensures { result ≡ named n (words_of line.now) place }
{
    Name::new(line.word(place)).ok_or(RequestFault::BadLine(n))
}

/// The number of at most 18 digits that a word of line `n` writes.
pub(crate) fn numbered(n: u32, line: &WordLine, place: usize) -> Result<u64, RequestFault>
    requires { place < KEPT_WORDS }
    ensures { result ≡ numbered n (words_of line.now) place }
{
    let value = number(line.word(place)).ok_or(RequestFault::BadLine(n))?;
    if value < PAST_DIGITS {
        Ok(value as u64)
    } else {
        Err(RequestFault::BadLine(n))
    }
}
