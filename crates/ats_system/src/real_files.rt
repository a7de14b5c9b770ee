//! Files of the system, read by name.

ghost use Rattle.std.specs.Prelude.{◌≡◌, ℕ, ◌+◌, ◌<◌, ◌≤◌, List, length, None, IsSomeAnd, IfSome, IfNone, OnSome, IfOk};
ghost use Rattle.std.specs.Prelude.{OnOk, OnErr, []};
ghost use Rattle.std.specs.Io.KnownBytes.{ReadConsumes};
ghost use Rattle.ats_io.specs.Outside.{Rose, IfTold, Continues, IsPieceAt};
ghost use Rattle.ats_io.specs.Reads.{and_read};
ghost use Rattle.ats_system.specs.Faults.{faults_of, Raises};
ghost use Rattle.ats_system.specs.Words.{place_of};
ghost use Rattle.ats_system.specs.Open.{Stands};

use crate::fault_counts::FaultCounts;
use ats_io::files::MAX_PLACE;
use ats_io::{Failed, ReadCall, Reads};
use std::alloc::{AllocError, Global};
use std::fs::File;
use std::io;
use std::io::{Read, Seek, SeekFrom};
use std::rt::Files;

/// The files of a runtime, by their paths; a relative path starts at the process's folder. It tells
/// the bytes of no name, and has a count of faults for each word of the program's call and one for
/// all other names.
///
/// A read fails where the file is not there, may not be read or is a folder, and where the system
/// reports any other error, an interrupted read among them.
///
/// The file of the word that was read last stays open, and its place is set only where a read asks
/// for another one than that where it stands: a pipe can be read once, from front to end. A name
/// that is no word is opened for each read.
#[derive(Drop)]
pub struct RealFiles<'a, R: Files + Drop> {
    rt: R,
    faults: FaultCounts<'a>,
    current: Option<OpenWord<R::File>>,
    reads: Reads,
}

// An open file, the place of its word among the words, and the place in the file where it stands, in bytes.
#[derive(Drop)]
struct OpenWord<F> {
    file: F,
    word: usize,
    at: u64,
}

impl<'a, R: Files + Drop> RealFiles<'a, R> {
    /// The files, none of them open, with no fault yet, and a count for each of these words.
    /// `AllocError` where there is no memory for the counts.
    pub fn new(alloc: Global, rt: R, words: &'a [String]) -> Result<Self, AllocError>
        ensures words { IfOk result (λ made. made.faults.words.now ≡ words.entry.now) }
        ensures faults { IfOk result
            (λ made. (name : List ℕ) → ⟦<RealFiles<'a, R> as ats_io::Files>⟧.faults made name ≡ 0) }
        ensures reads { IfOk result (λ made. ⟦<RealFiles<'a, R> as ats_io::Files>⟧.reads made ≡ []) }
    {
        Ok(RealFiles {
            rt,
            faults: FaultCounts::new(alloc, words)?,
            current: None,
            reads: Reads::new(),
        })
    }

    // The read itself. The file of a word stays open where it was read, and is closed after an error.
    fn read_piece(&mut self, name: &str, at: u64, buf: &mut [u8]) -> io::Result<usize>
        requires { at ≤ MAX_PLACE }
        ensures within { IfOk result (λ count. count ≤ length buf.new) }
        ensures faults { self.new.faults ≡ self.old.faults }
        ensures reads { self.new.reads ≡ self.old.reads }
        ensures stands { IfOk result (λ count. IfSome (place_of self.old.faults.words.now name.now)
            (λ word. IsSomeAnd self.new.current (Stands word (at + count)))) }
        ensures closed { OnErr result (OnSome (place_of self.old.faults.words.now name.now) (self.new.current ≡ None)) }
        ensures others { IfNone (place_of self.old.faults.words.now name.now) (self.new.current ≡ self.old.current) }
    {
        let Some(word) = self.faults.place_of(name) else {
            let mut file = File::open(&self.rt, name)?;
            return read_at(&mut file, 0, at, buf);
        };
        let mut current = match self.current.take() {
            Some(current) if current.word == word => current,
            _ => OpenWord {
                file: File::open(&self.rt, name)?,
                word,
                at: 0,
            },
        };
        let count = read_at(&mut current.file, current.at, at, buf)?;
        current.at = at + count as u64;
        self.current = Some(current);
        Ok(count)
    }
}

// Reads from place `at` of a file that stands at `stands`. Where it stands there, the bytes are the
// ones that it has left.
fn read_at<F: Read + Seek>(file: &mut F, stands: u64, at: u64, buf: &mut [u8]) -> io::Result<usize>
    ensures within { IfOk result (λ count. count ≤ length buf.new) }
    ensures in_place { stands ≡ at → ReadConsumes (F.remaining file.old) (F.remaining file.new) result buf.new }
{
    if stands != at {
        file.seek(SeekFrom::Start(at))?;
    }
    file.read(buf)
}

impl<'a, R: Files + Drop> ats_io::Files for RealFiles<'a, R> {
    ghost told = { λ _ _. None };

    ghost faults = { λ s name. faults_of s.faults name };

    ghost reads = { λ s. s.reads.made };

    fn read(&mut self, name: &str, at: u64, buf: &mut [u8]) -> Result<usize, Failed>
        requires room { 0 < length buf.old }
        requires place { at ≤ MAX_PLACE }
        ensures within { IfOk result (λ count. count ≤ length buf.new) }
        ensures piece { IfOk result (λ count. IfTold None (λ bytes. IsPieceAt bytes at count buf.new)) }
        ensures failed { OnErr result (Rose (faults_of self.old.faults name.now) (faults_of self.new.faults name.now)) }
        ensures raised { OnErr result (Raises name.now self.old.faults self.new.faults) }
        ensures kept { OnOk result (self.new.faults ≡ self.old.faults) }
        ensures calm { OnOk result (⟦<RealFiles<'a, R> as ats_io::Files>⟧.faults self.new
            ≡ ⟦<RealFiles<'a, R> as ats_io::Files>⟧.faults self.old) }
        ensures continues { Continues ⟦<RealFiles<'a, R> as ats_io::Files>⟧.told
            ⟦<RealFiles<'a, R> as ats_io::Files>⟧.faults self.old self.new }
        ensures made { self.new.reads.made ≡ and_read self.old.reads.made name.now at result }
    {
        match self.read_piece(name, at, buf) {
            Ok(count) => {
                let answer = Ok(count);
                self.reads = self.reads.and(&ReadCall { name, at, answer });
                answer
            }
            Err(_) => {
                let answer = Err(Failed);
                self.faults.raise(name);
                self.reads = self.reads.and(&ReadCall { name, at, answer });
                answer
            }
        }
    }
}
