//! What the lines of a shape file so far declare.

ghost use Rattle.std.specs.Prelude.{◌≡◌, IfOk, OnOk, OnErr};
ghost use Rattle.ats_io.specs.Text.{words_of};
ghost use Rattle.ats_shape.specs.Reading.{blank, line_in, declared_line, stream_line, frame_line};
ghost use Rattle.ats_shape.specs.Reading.{with_line, finished, last_time};
ghost use Rattle.ats_shape.specs.Draft.{Fits};

use crate::fault::ShapeFault;
use crate::line::{Line, frame_in, residence_line, ruled, stream_in};
use crate::shape::{Shape, ShapeFrame, ShapeStream};
use ats_num::{NameTable, Ps};
use ats_words::WordLine;
use std::alloc::{AllocError, Global};
use std::marker::Model;

/// The most streams of a shape file.
pub const MAX_STREAMS: usize = 4096;

/// The most frames of a shape file.
pub const MAX_FRAMES: usize = 200_000;

/// What the lines so far declare. Contracts see the residence and the lists.
#[derive(Drop)]
pub(crate) struct Draft {
    residence_ns: Option<u32>,
    table: NameTable,
    stream_list: Vec<ShapeStream>,
    frame_list: Vec<ShapeFrame>,
}

impl Model for Draft {
    ghost use Rattle.ats_shape.specs.Reading.{DraftShape};
    ghost use Rattle.ats_shape.specs.Draft.{IsDraft};

    ghost Value = { DraftShape };

    ghost view = { λ d.
        record { residence = d.residence_ns; streams = d.stream_list.items; frames = d.frame_list.items } };

    ghost invariant = { λ d. IsDraft d.table
        (record { residence = d.residence_ns; streams = d.stream_list.items; frames = d.frame_list.items }) };
}

impl Draft {
    /// Before the first line.
    pub(crate) fn new(alloc: Global) -> Self
        ensures { result ≡ blank }
    {
        Draft {
            residence_ns: None,
            table: NameTable::new(alloc),
            stream_list: Vec::new(alloc),
            frame_list: Vec::new(alloc),
        }
    }

    /// What the line with number `n` declares after the lines so far, or its fault.
    pub(crate) fn line_in(&self, n: u32, line: &[u8]) -> Result<Line, ShapeFault>
        ensures said { result ≡ line_in self.now n line.now }
        ensures fits { IfOk result (Fits self.now) }
    {
        let line = WordLine::new(line);
        if line.is_skipped() {
            return Ok(Line::Skipped);
        }
        if self.residence_ns.is_none() {
            return residence_line(n, &line);
        }
        self.declared_line(n, &line)
    }

    fn declared_line(&self, n: u32, line: &WordLine) -> Result<Line, ShapeFault>
        ensures said { result ≡ declared_line self.now n (words_of line.now) }
        ensures fits { IfOk result (Fits self.now) }
    {
        if line.word(0) == b"stream".as_slice() {
            return self.stream_line(n, line);
        }
        if line.word(0) == b"frame".as_slice() {
            return self.frame_line(n, line);
        }
        Err(ShapeFault::BadLine(n))
    }

    fn stream_line(&self, n: u32, line: &WordLine) -> Result<Line, ShapeFault>
        ensures said { result ≡ stream_line self.now n (words_of line.now) }
        ensures fits { IfOk result (Fits self.now) }
    {
        if !self.frame_list.is_empty() {
            return Err(ShapeFault::BadLine(n));
        }
        let words = stream_in(n, line)?;
        if self.table.place(&words.name).is_some() {
            return Err(ShapeFault::NameTwice(n));
        }
        let stream = ruled(n, &words)?;
        if self.stream_list.len() >= MAX_STREAMS {
            return Err(ShapeFault::Limit(n));
        }
        Ok(Line::Stream(stream))
    }

    fn frame_line(&self, n: u32, line: &WordLine) -> Result<Line, ShapeFault>
        ensures said { result ≡ frame_line self.now n (words_of line.now) }
        ensures fits { IfOk result (Fits self.now) }
    {
        let words = frame_in(n, line)?;
        let stream = self
            .table
            .place(&words.name)
            .ok_or(ShapeFault::UnknownName(n))?;
        if last_time(&self.frame_list) > words.at {
            return Err(ShapeFault::TimeBack(n));
        }
        if self.frame_list.len() >= MAX_FRAMES {
            return Err(ShapeFault::Limit(n));
        }
        Ok(Line::Frame(ShapeFrame {
            at: Ps(words.at),
            stream,
            octets: words.octets,
        }))
    }

    /// Adds what a line declares. `AllocError` leaves the draft as it was.
    pub(crate) fn add(&mut self, said: Line) -> Result<(), AllocError>
        requires { Fits self.old said }
        ensures ok { OnOk result (self.new ≡ with_line self.old said) }
        ensures err { OnErr result (self.new ≡ self.old) }
    {
        match said {
            Line::Skipped => {}
            Line::Residence(ns) => self.residence_ns = Some(ns),
            Line::Stream(stream) => {
                self.stream_list.reserve(1)?;
                self.table.push(stream.name)?;
                self.stream_list.push_reserved(stream);
            }
            Line::Frame(frame) => self.frame_list.push(frame)?,
        }
        Ok(())
    }

    /// The shape that all lines declare; `n` is the number of the line after the last.
    pub(crate) fn finish(self, n: u32) -> Result<Shape, ShapeFault>
        ensures { result ≡ finished self n }
    {
        let Draft {
            residence_ns,
            table: _,
            stream_list,
            frame_list,
        } = self;
        let residence = residence_ns.ok_or(ShapeFault::BadLine(n))?;
        Ok(Shape {
            residence,
            stream_list,
            frame_list,
        })
    }
}

fn last_time(frames: &[ShapeFrame]) -> u64
    ensures { result ≡ last_time frames.now }
{
    match frames.last() {
        Some(frame) => frame.at.0,
        None => 0,
    }
}
