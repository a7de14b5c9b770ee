//! What is printed for a shape.

ghost use Rattle.std.specs.Prelude.{◌≡◌, ◌≤◌, ◌<◌, ◌++◌, length, count_by, codes, decimal, All, OnOk, IfOk};
ghost use Rattle.ats_shape.specs.Text.{verdict_text, frame_text, frames_text, name_in, is_eligible, is_late, is_size};
ghost use Rattle.ats_shape.specs.Text.{totals_text, report_on};
ghost use Rattle.ats_shape.specs.declared.shape.ShapeFrame.{ShapeFrame};

use crate::shape::{Shape, ShapeFrame, ShapeStream};
use ats_group::Verdict;
use itoa::{Buffer, Integer};
use std::alloc::{AllocError, Global};

// The bytes of room that are taken for a line: the longest has 100, with a name of 32.
const LINE_BYTES: usize = 100;

/// A line for each frame with its verdict, then a line of totals.
pub fn report(alloc: Global, shape: &Shape, verdicts: &[Verdict]) -> Result<Vec<u8>, AllocError>
    requires { length verdicts.now ≡ length shape.now.frames }
    ensures { IfOk result (λ text. text.items ≡ report_on shape.now verdicts.now) }
{
    let mut out = Vec::with_capacity(alloc, LINE_BYTES * shape.frames().len())?;
    write_frames(&mut out, shape.streams(), shape.frames(), verdicts)?;
    write_totals(&mut out, verdicts)?;
    Ok(out)
}

fn write_frames(
    out: &mut Vec<u8>,
    streams: &[ShapeStream],
    frames: &[ShapeFrame],
    verdicts: &[Verdict],
) -> Result<(), AllocError>
    requires lines { length verdicts.now ≡ length frames.now }
    requires few { length frames.now ≤ 200000 }
    requires streams { All (λ (f : ShapeFrame). f.stream < length streams.now) frames.now }
    ensures { OnOk result (out.new.items ≡ out.old.items ++ frames_text streams.now 0 frames.now verdicts.now) }
{
    for (n, frame) in frames.iter().enumerate() {
        let stream = &streams[frame.stream as usize];
        write_frame(out, n, stream.name.bytes(), frame, &verdicts[n])?;
    }
    Ok(())
}

#[tactic(auto, unfolding(crate::specs::Text::frame_text))]
fn write_frame(
    out: &mut Vec<u8>,
    n: usize,
    name: &[u8],
    frame: &ShapeFrame,
    verdict: &Verdict,
) -> Result<(), AllocError>
    ensures { OnOk result (out.new.items ≡ out.old.items ++ frame_text n name.now frame.now verdict.now) }
{
    write_word(out, b"frame ", n)?;
    out.extend_from_slice(b" ")?;
    out.extend_from_slice(name)?;
    write_word(out, b" ", frame.octets)?;
    write_word(out, b" ", frame.at.0)?;
    out.extend_from_slice(b" ")?;
    write_verdict(out, verdict)?;
    out.extend_from_slice(b"\n")?;
    Ok(())
}

fn write_verdict(out: &mut Vec<u8>, verdict: &Verdict) -> Result<(), AllocError>
    ensures { OnOk result (out.new.items ≡ out.old.items ++ verdict_text verdict.now) }
{
    match verdict {
        Verdict::Eligible(at) => write_word(out, b"eligible ", at.0),
        Verdict::Late(at) => write_word(out, b"late ", at.0),
        Verdict::Size => Ok(out.extend_from_slice(b"size")?),
    }
}

#[tactic(auto, unfolding(crate::specs::Text::totals_text))]
fn write_totals(out: &mut Vec<u8>, verdicts: &[Verdict]) -> Result<(), AllocError>
    ensures { OnOk result (out.new.items ≡ out.old.items ++ totals_text verdicts.now) }
{
    write_word(out, b"total frames ", verdicts.len())?;
    write_word(out, b" eligible ", count_eligible(verdicts))?;
    write_word(out, b" late ", count_late(verdicts))?;
    write_word(out, b" size ", count_size(verdicts))?;
    out.extend_from_slice(b"\n")?;
    Ok(())
}

// A word, and a number behind it.
#[inline(always)]
fn write_word<I: Integer + Drop>(out: &mut Vec<u8>, word: &[u8], n: I) -> Result<(), AllocError>
    ensures { OnOk result (out.new.items ≡ out.old.items ++ (word.now ++ I.text n)) }
{
    out.extend_from_slice(word)?;
    write_number(out, n)
}

#[inline(never)]
fn write_number<I: Integer + Drop>(out: &mut Vec<u8>, n: I) -> Result<(), AllocError>
    ensures { OnOk result (out.new.items ≡ out.old.items ++ I.text n) }
{
    let mut buffer = Buffer::new();
    Ok(out.extend_from_slice(buffer.format(n).as_bytes())?)
}

fn count_eligible(verdicts: &[Verdict]) -> usize
    ensures { result ≡ count_by is_eligible verdicts.now }
{
    verdicts.iter().filter(|v| is_eligible(v)).count()
}

fn is_eligible(verdict: &Verdict) -> bool
    ensures { result ≡ is_eligible verdict.now }
{
    match verdict {
        Verdict::Eligible(_) => true,
        Verdict::Late(_) => false,
        Verdict::Size => false,
    }
}

fn count_late(verdicts: &[Verdict]) -> usize
    ensures { result ≡ count_by is_late verdicts.now }
{
    verdicts.iter().filter(|v| is_late(v)).count()
}

fn is_late(verdict: &Verdict) -> bool
    ensures { result ≡ is_late verdict.now }
{
    match verdict {
        Verdict::Eligible(_) => false,
        Verdict::Late(_) => true,
        Verdict::Size => false,
    }
}

fn count_size(verdicts: &[Verdict]) -> usize
    ensures { result ≡ count_by is_size verdicts.now }
{
    verdicts.iter().filter(|v| is_size(v)).count()
}

fn is_size(verdict: &Verdict) -> bool
    ensures { result ≡ is_size verdict.now }
{
    match verdict {
        Verdict::Eligible(_) => false,
        Verdict::Late(_) => false,
        Verdict::Size => true,
    }
}
