//! What is measured of one sender's releases, one after another.

ghost use Rattle.std.specs.Prelude.{◌≡◌, ◌<◌, ◌≤◌, [], ◌∷◌, ◌++◌, length, All};
ghost use Rattle.std.specs.Option.{option_map};
ghost use Rattle.ats_num.specs.Wire.{IsFrameSize};
ghost use Rattle.ats_trace.specs.declared.run.TheConstants.{MAX_FRAMES};
ghost use Rattle.ats_fit.specs.Steps.{IsBurstBy, IsTold};

use crate::deficit::Deficit;
use crate::measured::{Measured, Sizes};
use ats_history::History;
use ats_num::{Rate, wire_bits};
use ats_trace::Release;
use std::marker::Model;

/// Measures the releases of one sender, one after another. Contracts see its rate in bits per second, where it is a
/// stream, and the releases that it took, of which it keeps none.
#[derive(Drop)]
pub(crate) struct Gauge {
    taken: History<Release>,
    frames: u32,
    sizes: Option<Sizes>,
    deficit: Option<Deficit>,
}

impl Model for Gauge {
    ghost use Rattle.std.specs.Option.{option_map};
    ghost use Rattle.ats_fit.specs.declared.deficit.Deficit.{Deficit};
    ghost use Rattle.ats_fit.specs.Steps.{Gauging, IsGauged};

    ghost Value = { Gauging };

    ghost view = { λ g. record { rate = option_map (λ (d : Deficit). d.rate) g.deficit; taken = g.taken.items } };

    ghost invariant = { λ g. IsGauged g.taken.items g.frames g.sizes g.deficit };
}

impl Gauge {
    /// One that has taken no release, of a stream with this rate or of a flow.
    pub(crate) fn new(rate: Option<Rate>) -> Gauge
        ensures { result ≡ record { rate = rate; taken = [] } }
    {
        Gauge {
            taken: History::new(),
            frames: 0,
            sizes: None,
            deficit: rate.map(Deficit::new),
        }
    }

    /// Takes the sender's next release. Conditions: fewer were taken than a run may have, none of them is later, and
    /// its octets are those of a frame.
    pub(crate) fn take(&mut self, release: &Release)
        requires few { length self.old.taken < MAX_FRAMES }
        requires order { All (λ earlier. earlier.at.0 ≤ release.now.at.0) self.old.taken }
        requires octets { IsFrameSize release.now.octets }
        ensures { self.new ≡ record self.old { taken = self.old.taken ++ release.now ∷ [] } }
    {
        self.frames += 1;
        self.sizes = Some(Sizes::with(self.sizes, release.octets));
        self.deficit = Deficit::with(self.deficit, release.at, wire_bits(release.octets));
        self.taken = self.taken.and(release);
    }

    /// What is measured of the releases that it took.
    pub(crate) fn measured(&self) -> Measured
        ensures { IsTold self.now result }
    {
        Measured {
            frames: self.frames,
            sizes: self.sizes,
            burst_bits: self.least_burst(),
        }
    }

    // The least burst of the releases that it took, where it is a stream's.
    fn least_burst(&self) -> Option<u64>
        ensures { IsBurstBy self.now.rate self.now.taken result }
    {
        match self.deficit {
            Some(deficit) => Some(deficit.least_burst()),
            None => None,
        }
    }
}
