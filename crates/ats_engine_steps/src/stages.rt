//! How far all frames are.

ghost use Rattle.std.specs.Prelude.{◌≡◌, ◌<◌, [], ◌∷◌, ◌++◌, length, slice_set};

use crate::stage::Stage;
use ats_history::History;
use std::marker::Model;

/// What is told of the stages, one after another.
#[derive(Clone, Copy, Debug, PartialEq, Eq)]
pub(crate) enum Told {
    /// There is a row more, at this stage.
    Began(Stage),
    /// This row is at this stage now.
    Reached(u32, Stage),
}

/// How far each frame is along each of its legs. Contracts see the stages by row. A run goes by its agenda and its
/// records, and asks no stage: proofs alone read them, and they take no memory.
#[derive(Drop)]
pub struct Stages {
    told: History<Told>,
}

impl Model for Stages {
    ghost use Rattle.std.specs.Prelude.{List, []};
    ghost use Rattle.ats_engine_steps.specs.declared.stage.Stage.{Stage};
    ghost use Rattle.ats_engine_steps.specs.Stages.{stages_after};

    ghost Value = { List Stage };

    ghost view = { λ s. stages_after [] s.told.items };
}

impl Stages {
    /// Those of no row.
    pub fn new() -> Stages
        ensures { result ≡ [] }
    {
        Stages {
            told: History::new(),
        }
    }

    /// There is a row more, at this stage.
    pub fn push(&mut self, stage: Stage)
        ensures { self.new ≡ self.old ++ stage ∷ [] }
    {
        self.told = self.told.and(&Told::Began(stage));
    }

    /// This row is at this stage now.
    pub fn set(&mut self, row: u32, stage: Stage)
        requires { row < length self.old }
        ensures { self.new ≡ slice_set self.old row stage }
    {
        self.told = self.told.and(&Told::Reached(row, stage));
    }
}
