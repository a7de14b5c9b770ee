//! Files and a sink that never fail.

ghost use Rattle.std.specs.Prelude.{◌≡◌, ℕ, ◌<◌, ◌≤◌, List, [], None, Some, length, drop, min, IfOk, Ok, option_map};
ghost use Rattle.std.specs.Prelude.{unwrap_or};
ghost use Rattle.std.specs.List.{find};
ghost use Rattle.ats_io.specs.Outside.{IfTold, Continues, IsPieceAt};
ghost use Rattle.ats_io.specs.Memory.{pairs_of, has_name, bytes_or_none};
ghost use Rattle.ats_io.specs.Reads.{and_read};

use crate::fault::Failed;
use crate::files::{Files, MAX_PLACE};
use crate::plan;
use crate::reads::{ReadCall, Reads};
use crate::sink::Sink;
use std::marker::Model;

/// Files in memory that cannot fail: there is no fault to count, and a name without an entry is an
/// empty file. What a name has is always told. In contracts it is the record `SureHeld`.
#[derive(Drop)]
pub struct SureFiles {
    files: Vec<(String, Vec<u8>)>,
    reads: Reads,
}

impl Model for SureFiles {
    ghost use Rattle.ats_io.specs.Memory.{SureHeld, pairs_of};

    ghost Value = { SureHeld };

    ghost view = { λ s. record { files = pairs_of s.files.items; reads = s.reads.made } };
}

impl SureFiles {
    /// Files that hold these entries, each a name and its bytes. Names may be the same: then the
    /// first is held. It takes no memory and has no errors.
    pub fn new(files: Vec<(String, Vec<u8>)>) -> Self
        ensures held { result ≡ record { files = pairs_of files.items; reads = [] } }
        ensures told { (name : List ℕ)
            → ⟦<SureFiles as Files>⟧.told result name ≡ Some (bytes_or_none (pairs_of files.items) name) }
        ensures faults { (name : List ℕ) → ⟦<SureFiles as Files>⟧.faults result name ≡ 0 }
    {
        SureFiles {
            files,
            reads: Reads::new(),
        }
    }
}

impl Files for SureFiles {
    ghost told = { λ s name. Some (bytes_or_none s.files name) };

    ghost faults = { λ _ _. 0 };

    ghost reads = { λ s. s.reads };

    /// Puts bytes of the file `name` from place `at`, in bytes, into the front of the buffer, as
    /// many as are there and fit, and gives their number. It is never `Failed`.
    #[tactic(auto, using(crate::proofs::Pairs::bytes_of_pairs))]
    fn read(&mut self, name: &str, at: u64, buf: &mut [u8]) -> Result<usize, Failed>
        requires room { 0 < length buf.old }
        requires place { at ≤ MAX_PLACE }
        ensures within { IfOk result (λ count. count ≤ length buf.new) }
        ensures piece { IfOk result
            (λ count. IfTold (Some (bytes_or_none self.old.files name.now))
            (λ bytes. IsPieceAt bytes at count buf.new)) }
        ensures continues { Continues ⟦<SureFiles as Files>⟧.told ⟦<SureFiles as Files>⟧.faults self.old self.new }
        ensures made { self.new.reads ≡ and_read self.old.reads name.now at result }
        ensures full { result ≡ Ok (min (length buf.new) (length (drop at (bytes_or_none self.old.files name.now)))) }
        ensures same { self.new.files ≡ self.old.files }
    {
        let answer = Ok(plan::put_piece(bytes_of(&self.files, name), at, buf));
        self.reads = self.reads.and(&ReadCall { name, at, answer });
        answer
    }
}

// The bytes of the first file of this name, or none where no file has it.
fn bytes_of<'a>(files: &'a [(String, Vec<u8>)], name: &str) -> &'a [u8]
    ensures { result.now ≡ unwrap_or (option_map (λ file. file.1.items) (find (has_name name.now) files.entry.now)) [] }
{
    match files.iter().find(|file| file.0.as_str() == name) {
        Some(file) => &file.1,
        None => &[],
    }
}

/// A sink that cannot fail: it takes whatever comes and forgets it, so it tells nothing. It takes no memory.
#[derive(Clone, Copy, Debug, PartialEq, Eq, Hash)]
pub struct SureSink;

impl SureSink {
    /// The sink; all of them are the same. It has no errors.
    pub fn new() -> Self
        ensures held { ⟦<SureSink as Sink>⟧.held result ≡ None }
        ensures faults { ⟦<SureSink as Sink>⟧.faults result ≡ 0 }
    {
        SureSink
    }
}

impl Sink for SureSink {
    ghost held = { λ _. None };

    ghost faults = { λ _. 0 };

    /// Takes the whole piece, and gives the number of its bytes. It is never `Failed`.
    fn write(&mut self, piece: &[u8]) -> Result<usize, Failed>
        requires { 0 < length piece.now }
        ensures some { IfOk result (λ count. 0 < count) }
        ensures within { IfOk result (λ count. count ≤ length piece.now) }
        ensures whole { result ≡ Ok (length piece.now) }
    {
        Ok(piece.len())
    }
}
