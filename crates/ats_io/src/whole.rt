//! Reads of whole files and writes of whole texts.

ghost use Rattle.std.specs.Prelude.{◌≡◌, ◌+◌, ◌-◌, ◌<◌, ◌≤◌, [], ◌∷◌, length, take, IfOk, OnOk, OnErr, IsOk, IsErrOf};
ghost use Rattle.std.specs.Prelude.{vec_len};
ghost use Rattle.ats_io.specs.Outside.{Rose, IfTold, Continues, TakesPrefix, appended};
ghost use Rattle.ats_io.specs.Reads.{ReadsInTurn};
ghost use Rattle.ats_io.specs.Whole.{WholeIsDue, TooLongIsDue};
ghost use Rattle.ats_io.specs.declared.files.TheConstants.{MAX_PLACE};

use crate::fault::{Failed, ReadFault};
use crate::files::Files;
use crate::sink::Sink;
use ats_num::Failure;
use std::alloc::{AllocError, Global};

/// The most bytes that one call asks of a file.
const PIECE: usize = 65_536;

/// The bytes of the file `name`, read once, from front to end. Conditions: the limit, in bytes, is
/// at most 268,435,456. At most one byte past the limit is read.
///
/// `Failed`: a read failed, and the count of faults of the name rose. `TooLong`: the file has more
/// bytes than the limit. `Failure::NoMemory`: memory ran out. Unless it is `Failed`, no count of
/// faults changed.
pub fn read_whole<F: Files>(
    alloc: Global,
    files: &mut F,
    name: &str,
    limit: u64,
) -> Result<Vec<u8>, Failure<ReadFault>>
    requires { limit ≤ MAX_PLACE }
    ensures within { IfOk result (λ whole. length whole.items ≤ limit) }
    ensures whole { IfOk result (λ whole. IfTold (F.told files.old name.now) (λ bytes. whole.items ≡ bytes)) }
    ensures too_long { IsErrOf result (Failure.Fault ReadFault.TooLong)
        → IfTold (F.told files.old name.now) (λ bytes. limit < length bytes) }
    ensures failed { IsErrOf result (Failure.Fault ReadFault.Failed)
        → Rose (F.faults files.old name.now) (F.faults files.new name.now) }
    ensures calm { ¬ IsErrOf result (Failure.Fault ReadFault.Failed) → F.faults files.new ≡ F.faults files.old }
    ensures whole_due { WholeIsDue (F.told files.old name.now) (F.faults files.old name.now)
        (F.faults files.new name.now) limit result }
    ensures long_due { TooLongIsDue (F.told files.old name.now) (F.faults files.old name.now)
        (F.faults files.new name.now) limit result }
    ensures continues { Continues F.told F.faults files.old files.new }
    ensures in_turn { ReadsInTurn (name.now ∷ []) (F.reads files.old) (F.reads files.new) }
{
    let mut buffer = new_buffer(alloc)?;
    let mut whole = Vec::new(alloc);
    loop {
        let most = buffer.len().min(limit as usize + 1 - whole.len());
        let piece = &mut buffer[..most];
        let count = files.read(name, whole.len() as u64, piece)?;
        if count == 0 {
            return Ok(whole);
        }
        whole.extend_from_slice(&piece[..count])?;
        if whole.len() as u64 > limit {
            return Err(Failure::Fault(ReadFault::TooLong));
        }
    }
}

// The room for one piece.
fn new_buffer(alloc: Global) -> Result<Vec<u8>, AllocError>
    ensures { IfOk result (λ buffer. 0 < vec_len buffer) }
{
    let buffer = vec![in alloc; 0u8; PIECE]?;
    Ok(buffer)
}

/// Writes the whole text, in as many pieces as the sink takes; then the count of faults of the sink
/// did not change. `Failed` comes only where it rose, and then a front of the text was taken. An
/// empty text makes no call. It takes no memory.
pub fn write_all<O: Sink>(out: &mut O, text: &[u8]) -> Result<(), Failed>
    ensures taken { OnOk result (O.held out.new ≡ appended (O.held out.old) text.now) }
    ensures cut_short { OnErr result (TakesPrefix text.now (O.held out.old) (O.held out.new)) }
    ensures failed { OnErr result (Rose (O.faults out.old) (O.faults out.new)) }
    ensures calm { OnOk result (O.faults out.new ≡ O.faults out.old) }
    ensures counts { O.faults out.old ≤ O.faults out.new }
    ensures empty { text.now ≡ [] → IsOk result }
    ensures untouched { text.now ≡ [] → out.new ≡ out.old }
{
    let mut done = 0;
    while done < text.len() {
        done += out.write(&text[done..])?;
    }
    Ok(())
}
