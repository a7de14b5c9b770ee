//! What a shape file declares.

ghost use Rattle.std.specs.Prelude.{◌≡◌};

use ats_num::{Name, Ps};
use ats_streams::Declared;
use std::marker::Model;

/// A stream of a shape file.
#[derive(Clone, Copy, Debug)]
pub struct ShapeStream {
    /// Its name, which no other stream of the file has.
    pub name: Name,
    /// What is declared of it.
    pub declared: Declared,
}

/// A frame of a shape file.
#[derive(Clone, Copy, Debug)]
pub struct ShapeFrame {
    /// When it arrives, at most 100,000,000,000,000,000 ps.
    pub at: Ps,
    /// The place of its stream among the streams, from 0.
    pub stream: u32,
    /// Its octets, counted with the frame check sequence: 64 to 2000.
    pub octets: u32,
}

/// What a shape file declares: one group with a maximum residence time, its streams, and the frames
/// that arrive there, in order. Contracts see the lists.
#[derive(Debug, Drop)]
pub struct Shape {
    pub(crate) residence: u32,
    pub(crate) stream_list: Vec<ShapeStream>,
    pub(crate) frame_list: Vec<ShapeFrame>,
}

impl Model for Shape {
    ghost use Rattle.ats_shape.specs.Shape.{DeclaredShape, IsShape};

    ghost Value = { DeclaredShape };

    ghost view = { λ s.
        record { residence_ns = s.residence; streams = s.stream_list.items; frames = s.frame_list.items } };

    ghost invariant = { λ s.
        IsShape (record { residence_ns = s.residence; streams = s.stream_list.items; frames = s.frame_list.items }) };
}

impl Shape {
    ghost use Rattle.ats_shape.specs.Shape.{IsShape};

    /// The maximum residence time, 0 to 1,000,000,000 ns.
    pub fn residence_ns(&self) -> u32
        ensures value { result ≡ self.now.residence_ns }
        ensures shape { IsShape self.now }
    {
        self.residence
    }

    /// The streams, at most 4096, in file order.
    pub fn streams(&self) -> &[ShapeStream]
        ensures value { result.now ≡ self.now.streams }
        ensures shape { IsShape self.now }
    {
        &self.stream_list
    }

    /// The frames, at most 200,000, in file order. Their arrivals do not descend.
    pub fn frames(&self) -> &[ShapeFrame]
        ensures value { result.now ≡ self.now.frames }
        ensures shape { IsShape self.now }
    {
        &self.frame_list
    }
}
