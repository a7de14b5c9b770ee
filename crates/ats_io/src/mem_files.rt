//! Files in memory whose reads fail where it is planned.

ghost use Rattle.std.specs.Prelude.{◌≡◌, ℕ, ◌<◌, ◌≤◌, ◌||◌, List, length, position, is_err, is_none, Option};
ghost use Rattle.std.specs.Prelude.{IfOk, IfSome, OnErr, OnOk, []};
ghost use Rattle.ats_io.specs.Outside.{Rose, Continues};
ghost use Rattle.ats_io.specs.Memory.{pairs_of, bytes_of, count_at, count_of, next_count, has_name, is_named};
ghost use Rattle.ats_io.specs.Memory.{is_planned, ReadsPiece, ReadsAll};
ghost use Rattle.ats_io.specs.Reads.{and_read};

use crate::fault::Failed;
use crate::files::{Files, MAX_PLACE};
use crate::plan;
use crate::reads::{ReadCall, Reads};
use std::alloc::{AllocError, Global};
use std::marker::Model;

/// Files for tests: lists of bytes under names, where reads fail when a test wants them to.
///
/// A name means the first entry with exactly its bytes; what that entry has is told. A read gives
/// all the bytes from the place on, as far as the buffer has room. It fails where there is no such
/// entry, and where its number, the first read being 1, is in the list that was given. Each entry
/// has its own count of faults, and the names without an entry have one together. Counters that
/// reach the greatest `u64` stay there. In contracts it is the record `HeldFiles`.
#[derive(Drop)]
pub struct MemFiles {
    files: Vec<(String, Vec<u8>)>,
    counts: Vec<u64>,
    others: u64,
    calls: u64,
    fails: Vec<u32>,
    reads: Reads,
}

impl Model for MemFiles {
    ghost use Rattle.std.specs.Prelude.{◌≡◌, vec_len};
    ghost use Rattle.ats_io.specs.Memory.{HeldFiles, pairs_of};

    ghost Value = { HeldFiles };

    ghost view = { λ s. record {
      files = pairs_of s.files.items;
      counts = s.counts.items;
      others = s.others;
      calls = s.calls;
      fails = s.fails.items;
      reads = s.reads.made;
    } };

    ghost invariant = { λ s. vec_len s.counts ≡ vec_len s.files };
}

impl MemFiles {
    /// These files, with no fault yet; the calls with the numbers in `fails` are to fail.
    /// `AllocError` where there is no memory for the counts.
    pub fn new(
        alloc: Global,
        files: Vec<(String, Vec<u8>)>,
        fails: Vec<u32>,
    ) -> Result<Self, AllocError>
        ensures told { IfOk result
            (λ made. (name : List ℕ) → ⟦<MemFiles as Files>⟧.told made name ≡ bytes_of (pairs_of files.items) name) }
        ensures faults { IfOk result (λ made. (name : List ℕ) → ⟦<MemFiles as Files>⟧.faults made name ≡ 0) }
        ensures reads { IfOk result (λ made. ⟦<MemFiles as Files>⟧.reads made ≡ []) }
        ensures held { IfOk result (λ made. made.files ≡ pairs_of files.items) }
        ensures calls { IfOk result (λ made. made.calls ≡ 0) }
        ensures fails { IfOk result (λ made. made.fails ≡ fails.items) }
    {
        let counts = vec![in alloc; 0u64; files.len()]?;
        Ok(MemFiles {
            files,
            counts,
            others: 0,
            calls: 0,
            fails,
            reads: Reads::new(),
        })
    }
}

impl Files for MemFiles {
    ghost told = { λ s name. bytes_of s.files name };

    ghost faults = { λ s name. count_of s.files s.counts s.others name };

    ghost reads = { λ s. s.reads };

    fn read(&mut self, name: &str, at: u64, buf: &mut [u8]) -> Result<usize, Failed>
        requires room { 0 < length buf.old }
        requires place { at ≤ MAX_PLACE }
        ensures within { IfOk result (λ count. count ≤ length buf.new) }
        ensures piece { IfOk result (λ count. ReadsPiece self.old.files name.now at count buf.new) }
        ensures failed { OnErr result (Rose (count_of self.old.files self.old.counts self.old.others name.now)
            (count_of self.new.files self.new.counts self.new.others name.now)) }
        ensures calm { OnOk result
            (⟦<MemFiles as Files>⟧.faults self.new ≡ ⟦<MemFiles as Files>⟧.faults self.old) }
        ensures continues { Continues ⟦<MemFiles as Files>⟧.told ⟦<MemFiles as Files>⟧.faults self.old self.new }
        ensures made { self.new.reads ≡ and_read self.old.reads name.now at result }
        ensures full { IfOk result (λ count. ReadsAll self.old.files name.now at count buf.new) }
        ensures fails { is_err result ≡ (is_none (position (is_named name.now) self.old.files)
            || is_planned self.old.fails (next_count self.old.calls)) }
        ensures calls { self.new.calls ≡ next_count self.old.calls }
        ensures plan { self.new.fails ≡ self.old.fails }
    {
        self.calls = plan::next_count(self.calls);
        let fails = plan::is_planned(&self.fails, self.calls);
        let answer = read_named(
            &self.files,
            &mut self.counts,
            &mut self.others,
            fails,
            name,
            at,
            buf,
        );
        self.reads = self.reads.and(&ReadCall { name, at, answer });
        answer
    }
}

// Reads from the file of this name, or counts a fault: where no file has the name, and where the read is to fail.
#[tactic(auto, using(crate::proofs::Pairs::place_of_pairs))]
fn read_named(
    files: &[(String, Vec<u8>)],
    counts: &mut [u64],
    others: &mut u64,
    fails: bool,
    name: &str,
    at: u64,
    buf: &mut [u8],
) -> Result<usize, Failed>
    requires paired { length counts.old ≡ length files.now }
    requires room { 0 < length buf.old }
    ensures within { IfOk result (λ count. count ≤ length buf.new) }
    ensures piece { IfOk result (λ count. ReadsPiece (pairs_of files.now) name.now at count buf.new) }
    ensures full { IfOk result (λ count. ReadsAll (pairs_of files.now) name.now at count buf.new) }
    ensures failed { OnErr result (Rose (count_of (pairs_of files.now) counts.old others.old name.now)
        (count_of (pairs_of files.now) counts.new others.new name.now)) }
    ensures calm { OnOk result ((counts.new ≡ counts.old) × (others.new ≡ others.old)) }
    ensures grows { (other : List ℕ) → count_of (pairs_of files.now) counts.old others.old other
        ≤ count_of (pairs_of files.now) counts.new others.new other }
    ensures fails { is_err result ≡ (is_none (position (is_named name.now) (pairs_of files.now)) || fails) }
    ensures paired { length counts.new ≡ length counts.old }
{
    let place = place_of(files, name);
    match place {
        Some(found) if !fails => Ok(plan::put_piece(&files[found].1, at, buf)),
        _ => {
            raise(counts, others, place);
            Err(Failed)
        }
    }
}

// Counts a fault of the file at this place, or of all other names where there is no place.
fn raise(counts: &mut [u64], others: &mut u64, place: Option<usize>)
    requires { IfSome place (λ at. at < length counts.old) }
    ensures raised { count_at counts.new others.new place ≡ next_count (count_at counts.old others.old place) }
    ensures grows { (other : Option ℕ) → count_at counts.old others.old other ≤ count_at counts.new others.new other }
    ensures length { length counts.new ≡ length counts.old }
{
    match place {
        Some(at) => counts[at] = plan::next_count(counts[at]),
        None => *others = plan::next_count(*others),
    }
}

// The place of the first file of this name.
fn place_of(files: &[(String, Vec<u8>)], name: &str) -> Option<usize>
    ensures { result ≡ position (has_name name.now) files.now }
{
    files.iter().position(|file| file.0.as_str() == name)
}
