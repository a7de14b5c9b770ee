//! Captures that are read from a file through a window.

ghost use Rattle.std.specs.Prelude.{◌≡◌, ◌+◌, ◌++◌, ◌≤◌, ◌<◌, ℕ, List, All, IfErr, IfOk, IsErrOf, OnErr, length};
ghost use Rattle.std.specs.Prelude.{OnOk, vec_len, [], ◌∷◌};
ghost use Rattle.ats_io.specs.Outside.{Rose, IfTold, Continues, IsPieceAt};
ghost use Rattle.ats_io.specs.Reads.{ReadsInTurn, and_read};
ghost use Rattle.ats_io.specs.declared.files.TheConstants.{MAX_PLACE};
ghost use Rattle.ats_pcap.specs.Capture.{records_of};
ghost use Rattle.ats_pcap.specs.Reading.{StandsFor, UnlessMemory};
ghost use Rattle.ats_capture.specs.Inside.{Refuses};
ghost use Rattle.ats_capture.specs.Reading.{GivesUnlessFailed, IsLongEnough, of_file, records_in};

use crate::fault::RecordsFault;
use ats_io::Files;
use ats_num::Failure;
use ats_pcap::{Reader, Record};
use std::alloc::{AllocError, Global};

/// The most bytes of a capture's file.
pub const MAX_BYTES: u64 = 268_435_456;

/// The most bytes that one call asks of a file.
const PIECE: usize = 65_536;

/// The records of the capture in the file `name`, at most 1,000,000. The file is read once, from its
/// front, in pieces of at most 65,536 bytes, of which none is kept; reading stops at the piece that
/// shows a fault.
///
/// # Errors
///
/// `Failed`: a read failed, and the count of faults of the name rose. `Capture`: the first fault of
/// the file's bytes; of more than 268,435,456 bytes the first fault other than `CutShort` that the
/// first 268,435,456 show. `TooLong`: there are more, and they show none. `Failure::NoMemory`: memory
/// ran out. Unless it is `Failed`, no count of faults changed.
pub fn capture_records<F: Files>(
    alloc: Global,
    files: &mut F,
    name: &str,
) -> Result<Vec<Record>, Failure<RecordsFault>>
    ensures due { IfTold (F.told files.old name.now) (λ bytes. GivesUnlessFailed result (records_in bytes)) }
    ensures failed { IsErrOf result (Failure.Fault RecordsFault.Failed)
        → Rose (F.faults files.old name.now) (F.faults files.new name.now) }
    ensures calm { ¬ IsErrOf result (Failure.Fault RecordsFault.Failed) → F.faults files.new ≡ F.faults files.old }
    ensures few { IfOk result (λ records. vec_len records ≤ 1_000_000) }
    ensures octets { IfOk result (λ records. All IsLongEnough records.items) }
    ensures continues { Continues F.told F.faults files.old files.new }
    ensures in_turn { ReadsInTurn (name.now ∷ []) (F.reads files.old) (F.reads files.new) }
{
    let mut buffer = new_buffer(alloc)?;
    let mut reader = Reader::new(alloc);
    let mut at = 0;
    loop {
        let most = room_at(at);
        let piece = &mut buffer[..most];
        let count = read(files, name, at, piece)?;
        if count == 0 {
            return finish(reader);
        }
        if at == MAX_BYTES {
            return Err(Failure::Fault(RecordsFault::TooLong));
        }
        feed(&mut reader, &piece[..count])?;
        at += count as u64;
    }
}

// The room for one piece.
fn new_buffer(alloc: Global) -> Result<Vec<u8>, AllocError>
    ensures { IfOk result (λ buffer. vec_len buffer ≡ PIECE) }
{
    let buffer = vec![in alloc; 0u8; PIECE]?;
    Ok(buffer)
}

// Reads bytes of a file, those of one piece at most, into the front of a buffer, as `Files::read` does.
fn read<F: Files>(
    files: &mut F,
    name: &str,
    at: u64,
    buf: &mut [u8],
) -> Result<usize, Failure<RecordsFault>>
    requires room { 0 < length buf.old }
    requires piece { length buf.old ≤ PIECE }
    requires place { at ≤ MAX_PLACE }
    ensures within { IfOk result (λ count. count ≤ length buf.new) }
    ensures piece { IfOk result
        (λ count. IfTold (F.told files.old name.now) (λ bytes. IsPieceAt bytes at count buf.new)) }
    ensures failed { OnErr result (Rose (F.faults files.old name.now) (F.faults files.new name.now)) }
    ensures calm { OnOk result (F.faults files.new ≡ F.faults files.old) }
    ensures fault { IfErr result (λ e. e ≡ Failure.Fault RecordsFault.Failed) }
    ensures continues { Continues F.told F.faults files.old files.new }
    ensures made { F.reads files.new ≡ and_read (F.reads files.old) name.now at result }
{
    match files.read(name, at, buf) {
        Ok(count) => Ok(count),
        Err(_) => Err(Failure::Fault(RecordsFault::Failed)),
    }
}

// How many bytes are asked for from this place on: those of a piece, no more than there may be, and
// at the end one, which would be too many.
fn room_at(at: u64) -> usize
    requires { at ≤ MAX_BYTES }
    ensures some { 0 < result }
    ensures piece { result ≤ PIECE }
    ensures within { at < MAX_BYTES → at + result ≤ MAX_BYTES }
{
    let left = (MAX_BYTES - at) as usize;
    left.min(PIECE).max(1)
}

// Feeds a reader the next piece.
fn feed(reader: &mut Reader, piece: &[u8]) -> Result<(), Failure<RecordsFault>>
    requires piece { length piece.now ≤ PIECE }
    ensures answer { Refuses result reader.new.failure }
    ensures stands { (bytes : List ℕ) → StandsFor reader.old bytes →
        UnlessMemory reader.new.failure (StandsFor reader.new (bytes ++ piece.now)) }
{
    match reader.feed(piece) {
        Ok(()) => Ok(()),
        Err(Failure::Fault(fault)) => Err(Failure::Fault(RecordsFault::Capture(fault))),
        Err(Failure::NoMemory) => Err(Failure::NoMemory),
    }
}

// The records of a capture that ends here, or its fault.
fn finish(reader: Reader) -> Result<Vec<Record>, Failure<RecordsFault>>
    ensures due { (bytes : List ℕ) → StandsFor reader bytes →
        GivesUnlessFailed result (of_file (records_of bytes)) }
    ensures few { IfOk result (λ records. vec_len records ≤ 1_000_000) }
    ensures was_read { ¬ IsErrOf result (Failure.Fault RecordsFault.Failed) }
{
    match reader.finish() {
        Ok(records) => Ok(records),
        Err(Failure::Fault(fault)) => Err(Failure::Fault(RecordsFault::Capture(fault))),
        Err(Failure::NoMemory) => Err(Failure::NoMemory),
    }
}
