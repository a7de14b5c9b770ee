//! The text of what the records of a capture come to.

ghost use Rattle.std.specs.Prelude.{◌≡◌, IfOk};
ghost use Rattle.ats_capture.specs.Counts.{counts_text};
ghost use Rattle.ats_capture.specs.Seen.{seen};

use crate::traffic::StationTraffic;
use std::alloc::{AllocError, Global};

/// The line with the three counts. `AllocError` where there is no memory for it.
pub fn counts_line(alloc: Global, traffic: &StationTraffic) -> Result<Vec<u8>, AllocError>
    ensures { IfOk result (λ text. text.items ≡ counts_text (seen traffic.now)) }
{
    let records = traffic.records;
    let unidentified = traffic.unidentified;
    let oversize = traffic.oversize;
    let line = format!(in alloc;
        "records {records} unidentified {unidentified} oversize {oversize}\n"
    )?;
    Ok(line.into_bytes())
}
