//! Pieces of lines.

ghost use Rattle.std.specs.Prelude.{◌≡◌, ◌++◌, OnOk};

use itoa::{Buffer, Integer};
use std::alloc::AllocError;

// A word, and a number behind it.
#[inline(always)]
pub(crate) fn write_number<I: Integer + Drop>(
    out: &mut Vec<u8>,
    word: &[u8],
    n: I,
) -> Result<(), AllocError>
    ensures { OnOk result (out.new.items ≡ out.old.items ++ (word.now ++ I.text n)) }
{
    let mut buffer = Buffer::new();
    out.extend_from_slice(word)?;
    out.extend_from_slice(buffer.format(n).as_bytes())?;
    Ok(())
}
