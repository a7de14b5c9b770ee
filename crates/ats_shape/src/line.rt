//! What one line of a shape file declares.

ghost use Rattle.std.specs.Prelude.{◌≡◌, ◌-◌, ◌^◌, ◌≤◌, min, IfOk};
ghost use Rattle.ats_num.specs.Wire.{IsFrameSize};
ghost use Rattle.ats_io.specs.Text.{words_of};
ghost use Rattle.ats_shape.specs.Shape.{IsRuled};
ghost use Rattle.ats_shape.specs.Reading.{residence_line, stream_in, frame_in, ruled};

use crate::fault::ShapeFault;
use crate::shape::{ShapeFrame, ShapeStream};
use crate::words::{named, numbered};
use ats_num::Name;
use ats_num::wire::{MAX_OCTETS, MIN_OCTETS};
use ats_streams::Declared;
use ats_words::WordLine;

/// The greatest residence, in nanoseconds.
pub const MAX_RESIDENCE_NS: u128 = 1_000_000_000;

/// The latest arrival, in picoseconds.
pub const MAX_ARRIVAL_PS: u128 = 100_000_000_000_000_000;

/// What a line declares.
#[derive(Clone, Copy, Debug)]
pub(crate) enum Line {
    /// A comment, or a line without words.
    Skipped,
    /// The maximum residence time in nanoseconds.
    Residence(u32),
    /// A stream.
    Stream(ShapeStream),
    /// A frame.
    Frame(ShapeFrame),
}

/// A stream line as it stands: its numbers are not judged yet.
#[derive(Clone, Copy)]
pub(crate) struct StreamWords {
    pub name: Name,
    pub rate_bps: u128,
    pub burst_bits: u128,
    pub min_octets: u128,
    pub max_octets: u128,
}

/// A frame line as it stands: its name is not looked up yet.
#[derive(Clone, Copy)]
pub(crate) struct FrameWords {
    pub at: u64,
    pub name: Name,
    pub octets: u32,
}

/// What line `n` declares where it is `residence NS`.
pub(crate) fn residence_line(n: u32, line: &WordLine) -> Result<Line, ShapeFault>
    ensures { result ≡ residence_line n (words_of line.now) }
{
    let ns = numbered(n, line, 1)?;
    if line.has_words(2) && line.word(0) == b"residence".as_slice() && ns <= MAX_RESIDENCE_NS {
        Ok(Line::Residence(ns as u32))
    } else {
        Err(ShapeFault::BadLine(n))
    }
}

/// What the words of line `n` say where it is `stream NAME RATE BURST MIN MAX`.
pub(crate) fn stream_in(n: u32, line: &WordLine) -> Result<StreamWords, ShapeFault>
    ensures { result ≡ stream_in n (words_of line.now) }
{
    let name = named(n, line, 1)?;
    let rate_bps = numbered(n, line, 2)?;
    let burst_bits = numbered(n, line, 3)?;
    let min_octets = numbered(n, line, 4)?;
    let max_octets = numbered(n, line, 5)?;
    if !line.has_words(6) {
        return Err(ShapeFault::BadLine(n));
    }
    Ok(StreamWords {
        name,
        rate_bps,
        burst_bits,
        min_octets,
        max_octets,
    })
}

/// What the words of line `n` say where it is `frame AT NAME OCTETS`.
pub(crate) fn frame_in(n: u32, line: &WordLine) -> Result<FrameWords, ShapeFault>
    ensures said { result ≡ frame_in n (words_of line.now) }
    ensures bounds { IfOk result (λ words. IsFrameSize words.octets × (words.at ≤ 100000000000000000)) }
{
    let at = numbered(n, line, 1)?;
    let name = named(n, line, 2)?;
    let octets = numbered(n, line, 3)?;
    if line.has_words(4)
        && at <= MAX_ARRIVAL_PS
        && octets >= u128::from(MIN_OCTETS)
        && octets <= u128::from(MAX_OCTETS)
    {
        Ok(FrameWords {
            at: at as u64,
            name,
            octets: octets as u32,
        })
    } else {
        Err(ShapeFault::BadLine(n))
    }
}

/// The stream that these words of line `n` declare, or the first rule that it breaks.
pub(crate) fn ruled(n: u32, words: &StreamWords) -> Result<ShapeStream, ShapeFault>
    ensures stream { result ≡ ruled n words.now }
    ensures rules { IfOk result IsRuled }
{
    let rate_bps = narrowed(words.rate_bps);
    let burst_bits = narrowed(words.burst_bits);
    let min_octets = narrowed(words.min_octets);
    let max_octets = narrowed(words.max_octets);
    match Declared::new(rate_bps, burst_bits, min_octets, max_octets) {
        Ok(declared) => Ok(ShapeStream {
            name: words.name,
            declared,
        }),
        Err(fault) => Err(ShapeFault::Stream(n, fault)),
    }
}

/// The number, or the greatest `u64` where it is greater.
fn narrowed(number: u128) -> u64
    ensures { result ≡ min number (2 ^ 64 - 1) }
{
    u64::try_from(number).unwrap_or(u64::MAX)
}
