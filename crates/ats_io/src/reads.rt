//! The reads that were made, which proofs alone read.

ghost use Rattle.std.specs.Prelude.{◌≡◌, List, []};
ghost use Rattle.std.specs.Borrow.{ftrue};
ghost use Rattle.ats_io.specs.Reads.{Read, and_read, reads_code};

use crate::fault::Failed;
use std::marker::Model;

/// The reads that were made so far, in order. It takes no memory, and its calls do nothing when the program runs:
/// contracts alone see the list, as `made`, and it says no more than what they tie to it.
#[derive(Drop)]
pub struct Reads {
    pub ghost made: { List Read } by { reads_code },
}

impl Model for Reads {
    ghost also_owns = { λ _. ftrue };
}

/// A call of `read` of the trait `Files`, and what it comes to.
#[derive(Clone, Copy, Debug)]
pub struct ReadCall<'a> {
    /// The name of the file.
    pub name: &'a str,
    /// The place in the file from which it reads, in bytes.
    pub at: u64,
    /// The number of bytes that it gives, or that it failed.
    pub answer: Result<usize, Failed>,
}

impl Reads {
    /// No read so far.
    pub fn new() -> Reads
        ensures { result.made ≡ [] }
    {
        Reads {}
    }

    /// This call came last.
    pub fn and(&self, call: &ReadCall<'_>) -> Reads
        ensures { result.made ≡ and_read self.now.made call.now.name.now call.now.at call.now.answer }
    {
        Reads {}
    }
}
