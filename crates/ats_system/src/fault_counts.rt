//! Counts of faults of names.

ghost use Rattle.std.specs.Prelude.{◌≡◌, ℕ, ◌≤◌, List, length, IfOk, vec_len};

use std::alloc::{AllocError, Global};

/// A count of faults for each word of the program's call, from 0 to the last value of 64 bits, and
/// one for all names that are no word. Names are compared byte for byte, and words that are the
/// same share the first one's count.
#[derive(Drop)]
pub struct FaultCounts<'a> {
    words: &'a [String],
    counts: Vec<u64>,
    others: u64,
    ghost paired: { vec_len counts ≡ length words.now },
}

impl<'a> FaultCounts<'a> {
    ghost use Rattle.ats_system.specs.Words.{place_of};
    ghost use Rattle.ats_system.specs.Faults.{faults_of, Raises};

    /// No fault yet, for these words. `AllocError` where there is no memory for the counts.
    pub fn new(alloc: Global, words: &'a [String]) -> Result<Self, AllocError>
        ensures words { IfOk result (λ made. made.words.now ≡ words.entry.now) }
        ensures none { IfOk result (λ made. (name : List ℕ) → faults_of made name ≡ 0) }
    {
        let counts = vec![in alloc; 0u64; words.len()]?;
        Ok(FaultCounts {
            words,
            counts,
            others: 0,
        })
    }

    /// The place of the first word that is this name.
    pub fn place_of(&self, name: &str) -> Option<usize>
        ensures { result ≡ place_of self.now.words.now name.now }
    {
        self.words.iter().position(|word| word.as_str() == name)
    }

    /// Counts a fault of this name. A count at the last value of 64 bits stays there.
    pub fn raise(&mut self, name: &str)
        ensures raised { Raises name.now self.old self.new }
        ensures grows { (other : List ℕ) → faults_of self.old other ≤ faults_of self.new other }
    {
        match self.place_of(name) {
            Some(place) => self.counts[place] = self.counts[place].saturating_add(1),
            None => self.others = self.others.saturating_add(1),
        }
    }
}
