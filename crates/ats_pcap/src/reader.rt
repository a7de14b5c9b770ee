//! The reader of captures.

ghost use Rattle.std.specs.Prelude.{◌≡◌, ◌++◌, ℕ, List, [], Ok, Err, MatchResult, OnSome};
ghost use Rattle.ats_num.specs.Failure.{GivesSeen};
ghost use Rattle.ats_pcap.specs.Capture.{records_of};
ghost use Rattle.ats_pcap.specs.Reading.{Answers, StandsFor, UnlessMemory, ending_of};

use crate::fault::CaptureFault;
use crate::progress::Progress;
use crate::record::Record;
use ats_num::Failure;
use std::alloc::Global;
use std::marker::Model;

/// A reader of a capture that comes in pieces, cut anywhere. It keeps the records that it found, and
/// never more than 56 bytes besides. Contracts see it as a `Reading`: where the bytes end that it was
/// fed, and why it stopped, where it did.
#[derive(Drop)]
pub struct Reader {
    progress: Progress,
    failure: Option<Failure<CaptureFault>>,
}

impl Model for Reader {
    ghost use Rattle.ats_pcap.specs.Reading.{Reading};
    ghost use Rattle.ats_pcap.specs.Seen.{OpenUnless, seen};

    ghost Value = { Reading };

    ghost view = { λ r. record { position = seen r.progress; failure = r.failure } };

    ghost invariant = { λ r. OpenUnless r.failure (seen r.progress) };
}

impl Reader {
    /// A reader that was fed nothing yet. It takes no memory.
    #[tactic(auto, unfolding(crate::specs::Capture::position_of, crate::specs::Capture::header_fault))]
    pub fn new(alloc: Global) -> Self
        ensures { StandsFor result [] }
    {
        Reader {
            progress: Progress::new(alloc),
            failure: None,
        }
    }

    /// Takes the next piece of the capture. A fault other than `CutShort` is answered by the first
    /// call after which the bytes so far show it. After `Err` each further call answers the same,
    /// want of memory too, and changes nothing.
    pub fn feed(&mut self, piece: &[u8]) -> Result<(), Failure<CaptureFault>>
        ensures answer { Answers result self.new.failure }
        ensures stays { OnSome self.old.failure (self.new ≡ self.old) }
        ensures stands { (bytes : List ℕ) → StandsFor self.old bytes →
            UnlessMemory self.new.failure (StandsFor self.new (bytes ++ piece.now)) }
    {
        if let Some(failure) = self.failure {
            return Err(failure);
        }
        let read = self.progress.read(piece);
        if let Err(failure) = read {
            self.failure = Some(failure);
        }
        read
    }

    /// The records of the capture, if it ends here, or its first fault. It takes no memory:
    /// `NoMemory` is answered exactly where a `feed` answered it.
    pub fn finish(self) -> Result<Vec<Record>, Failure<CaptureFault>>
        ensures ending { MatchResult result (λ records. ending_of self.failure self.position ≡ Ok records.items)
            (λ e. ending_of self.failure self.position ≡ Err e) }
        ensures meaning { (bytes : List ℕ) → StandsFor self bytes →
            GivesSeen (λ records. records.items) result (records_of bytes) }
    {
        match self.failure {
            Some(failure) => Err(failure),
            None => Ok(self.progress.records()?),
        }
    }
}
