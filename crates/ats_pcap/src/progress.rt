//! How far a capture was read, as long as it has no fault.

ghost use Rattle.std.specs.Prelude.{◌≡◌, ◌+◌, ◌<◌, ◌≤◌, ◌++◌, ℕ, List, [], Ok, Err, None, length, MatchResult};
ghost use Rattle.std.specs.Prelude.{IfOk, OnOk};
ghost use Rattle.ats_num.specs.Failure.{Fails};
ghost use Rattle.ats_pcap.specs.Capture.{form_of, position_of, records_at};
ghost use Rattle.ats_pcap.specs.Inside.{IsOpen, MayEnd, behind_whole, room_at, settled, taken, whole_size};
ghost use Rattle.ats_pcap.specs.Seen.{Follows, seen};

use crate::fault::CaptureFault;
use crate::form::{Form, HEADER_BYTES, header_fault};
use crate::front::Front;
use crate::record::{
    RECORD_HEADER_BYTES, Record, captured_of, is_whole, record_fault, record_of, whole_size,
};
use ats_num::Failure;
use std::alloc::{AllocError, Global};

/// Where the bytes of a capture end: its header's bytes, its whole records, and of the bytes after
/// the last of them how many there are and the first 32.
#[derive(Drop)]
pub(crate) struct Progress {
    header: Front,
    records: Vec<Record>,
    there: usize,
    front: Front,
}

impl Progress {
    // Before the first byte. It takes no memory.
    pub(crate) fn new(alloc: Global) -> Self
        ensures { seen result ≡ record { header = []; records = []; there = 0; front = [] } }
    {
        Progress {
            header: Front::new(),
            records: Vec::new(alloc),
            there: 0,
            front: Front::new(),
        }
    }

    // How many of the bytes to come may be taken at once.
    #[tactic(auto, unfolding(crate::specs::Inside::room_at))]
    fn room(&self) -> usize
        requires { IsOpen (seen self.now) }
        ensures room { result ≡ room_at (seen self.now) }
        ensures some { 0 < result }
    {
        let header = self.header.bytes();
        if header.len() < HEADER_BYTES {
            return HEADER_BYTES - header.len();
        }
        if self.there < RECORD_HEADER_BYTES {
            return RECORD_HEADER_BYTES - self.there;
        }
        let captured = captured_of(Form::of(header), self.front.bytes());
        RECORD_HEADER_BYTES + captured as usize - self.there
    }

    // Takes a part within the room of the header.
    fn take_in_header(&mut self, part: &[u8]) -> Result<(), Failure<CaptureFault>>
        requires header { length self.old.header < 24 }
        requires room { length self.old.header + length part.now ≤ 24 }
        ensures { MatchResult result (λ _. taken (seen self.old) part.now ≡ Ok (seen self.new))
            (λ e. Fails e (taken (seen self.old) part.now)) }
    {
        self.header.extend(part);
        match header_fault(self.header.bytes()) {
            Some(fault) => Err(Failure::Fault(fault)),
            None => Ok(()),
        }
    }

    // Keeps the record after the last one and goes behind it, where it is whole.
    fn pass_whole(&mut self, form: Form) -> Result<(), AllocError>
        requires form { form ≡ form_of self.old.header }
        requires end { MayEnd (seen self.old) }
        ensures { OnOk result (behind_whole (seen self.old) ≡ seen self.new) }
    {
        let front = self.front.bytes();
        if is_whole(form, self.there, front) {
            let record = record_of(form, front);
            self.records.push(record)?;
            self.there = 0;
            self.front.clear();
        }
        Ok(())
    }

    // Looks at the bytes after the last whole record, which are at most those of one record.
    fn settle(&mut self) -> Result<(), Failure<CaptureFault>>
        requires { MayEnd (seen self.old) }
        ensures { MatchResult result (λ _. settled (seen self.old) ≡ Ok (seen self.new))
            (λ e. Fails e (settled (seen self.old))) }
    {
        let form = Form::of(self.header.bytes());
        let front = self.front.bytes();
        match record_fault(form, self.records.len(), self.there, front) {
            Some(fault) => Err(Failure::Fault(fault)),
            None => Ok(self.pass_whole(form)?),
        }
    }

    // Takes a part within the room.
    fn take(&mut self, part: &[u8]) -> Result<(), Failure<CaptureFault>>
        requires between { IsOpen (seen self.old) }
        requires some { 0 < length part.now }
        requires room { length part.now ≤ room_at (seen self.old) }
        ensures { MatchResult result (λ _. taken (seen self.old) part.now ≡ Ok (seen self.new))
            (λ e. Fails e (taken (seen self.old) part.now)) }
    {
        if self.header.len() < HEADER_BYTES {
            return self.take_in_header(part);
        }
        self.there += part.len();
        self.front.extend(part);
        self.settle()
    }

    // Takes the whole records that a piece begins with, up to the first that shows a fault, and gives
    // what is left of the piece.
    fn take_whole<'a>(&mut self, form: Form, piece: &'a [u8]) -> Result<&'a [u8], AllocError>
        requires between { IsOpen (seen self.old) }
        requires header { 24 ≤ length self.old.header }
        requires form { form ≡ form_of self.old.header }
        requires none { self.old.there ≡ 0 }
        ensures reads { IfOk result (λ rest. Follows (seen self.old) (seen self.new) piece.now rest.now) }
        ensures shorter { IfOk result (λ rest. length rest.now ≤ length piece.now) }
        ensures all { IfOk result (λ rest. whole_size form (length self.new.records.items) rest.now ≡ None) }
    {
        let mut rest = piece;
        while let Some(size) = whole_size(form, self.records.len(), rest) {
            let (part, after) = rest.split_at(size);
            self.records.push(record_of(form, part))?;
            rest = after;
        }
        Ok(rest)
    }

    // Where the next byte is the first of a record, takes the whole records that a piece begins with.
    // Gives what is left of the piece.
    fn take_records<'a>(&mut self, piece: &'a [u8]) -> Result<&'a [u8], AllocError>
        requires { IsOpen (seen self.old) }
        ensures reads { IfOk result (λ rest. Follows (seen self.old) (seen self.new) piece.now rest.now) }
        ensures shorter { IfOk result (λ rest. length rest.now ≤ length piece.now) }
    {
        if self.header.len() < HEADER_BYTES || self.there > 0 {
            return Ok(piece);
        }
        let form = Form::of(self.header.bytes());
        self.take_whole(form, piece)
    }

    // Takes a piece of the capture.
    pub(crate) fn read(&mut self, piece: &[u8]) -> Result<(), Failure<CaptureFault>>
        requires { IsOpen (seen self.old) }
        ensures between { OnOk result (IsOpen (seen self.new)) }
        ensures reads { (bytes : List ℕ) → position_of bytes ≡ Ok (seen self.old) →
            MatchResult result (λ _. position_of (bytes ++ piece.now) ≡ Ok (seen self.new))
            (λ e. Fails e (position_of (bytes ++ piece.now))) }
    {
        let mut rest = piece;
        while !rest.is_empty() {
            let count = self.room().min(rest.len());
            let (part, after) = rest.split_at(count);
            self.take(part)?;
            rest = self.take_records(after)?;
        }
        Ok(())
    }

    // The records of the capture, if it ends here.
    pub(crate) fn records(self) -> Result<Vec<Record>, CaptureFault>
        requires { length self.records.items ≤ 1_000_000 }
        ensures { MatchResult result (λ records. records_at (seen self) ≡ Ok records.items)
            (λ fault. records_at (seen self) ≡ Err fault) }
    {
        if self.header.len() < HEADER_BYTES {
            return Err(CaptureFault::CutShort(0));
        }
        if self.there > 0 {
            return Err(CaptureFault::CutShort(self.records.len() as u32 + 1));
        }
        Ok(self.records)
    }
}
