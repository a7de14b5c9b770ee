//! What is kept of a run while it is made.

ghost use Rattle.std.specs.Prelude.{◌≡◌, ◌<◌, ◌≤◌, length};
ghost use Rattle.ats_num.specs.declared.time.TheConstants.{END};
ghost use Rattle.ats_trace.specs.HopRecord.{IsEligible};
ghost use Rattle.ats_trace.specs.Stored.{row_of};
ghost use Rattle.ats_trace.specs.declared.run.TheConstants.{MAX_HOPS};
ghost use Rattle.ats_run_records.specs.Progress.{Ledger, progress_at, with_leg, with_hop, with_sent, with_ending};
ghost use Rattle.ats_run_records.specs.Progress.{last_hop};

use ats_group::Verdict;
use ats_num::Ps;
use ats_trace::{Ending, HopRecord, Release};

/// A way to keep the records of a run: all of them, or no more than the run goes by. Contracts see all of them either
/// way, as the ledger of the run so far. No call takes memory.
pub trait Store: Drop {
    ghost ledger: { Self → Ledger };

    /// The number of rows: of the legs of all frames.
    fn len(&self) -> usize
        ensures value { result ≡ length (ledger self.now).legs }
        ensures bounded { length (ledger self.now).legs ≤ MAX_HOPS };

    /// The row of a frame's leg, which is counted from 0 among the legs of its sender.
    fn row_of(&self, frame: u32, leg: u32) -> u32
        requires frame { frame < length (ledger self.now).firsts }
        requires there { row_of (ledger self.now).firsts frame leg < length (ledger self.now).legs }
        ensures { result ≡ row_of (ledger self.now).firsts frame leg };

    /// The number of the frame of a row.
    fn frame(&self, row: u32) -> u32
        requires { row < length (ledger self.now).legs }
        ensures { result ≡ (progress_at (ledger self.now).legs row).frame };

    /// The number of the leg of a row among the legs of its sender: 0 for a trunk.
    fn leg(&self, row: u32) -> u32
        requires { row < length (ledger self.now).legs }
        ensures { result ≡ (progress_at (ledger self.now).legs row).leg };

    /// The release of the frame of a row.
    fn release(&self, row: u32) -> Release
        requires { row < length (ledger self.now).legs }
        ensures { result ≡ (progress_at (ledger self.now).legs row).release };

    /// How many hop records a row has.
    fn hops(&self, row: u32) -> u32
        requires { row < length (ledger self.now).legs }
        ensures { result ≡ length (progress_at (ledger self.now).legs row).hops };

    /// The verdict of the last hop record of a row, which has one.
    fn verdict(&self, row: u32) -> Verdict
        requires row { row < length (ledger self.now).legs }
        requires last { 0 < length (progress_at (ledger self.now).legs row).hops }
        ensures { result ≡ (last_hop (progress_at (ledger self.now).legs row)).verdict };

    /// Adds one hop record more to those of a row, which has fewer than it may get.
    fn push(&mut self, row: u32, hop: HopRecord)
        requires row { row < length (ledger self.old).legs }
        requires room { length (progress_at (ledger self.old).legs row).hops
            < (progress_at (ledger self.old).legs row).room }
        ensures { ledger self.new
            ≡ with_leg (ledger self.old) row (with_hop (progress_at (ledger self.old).legs row) hop) };

    /// Tells in the last hop record of a row when its transmission starts and ends. Conditions: the frame is eligible
    /// there, and the start is below `END`.
    fn send(&mut self, row: u32, start: Ps, end: Ps)
        requires row { row < length (ledger self.old).legs }
        requires last { 0 < length (progress_at (ledger self.old).legs row).hops }
        requires eligible { IsEligible (last_hop (progress_at (ledger self.old).legs row)).verdict }
        requires in_time { start.0 < END }
        ensures { ledger self.new
            ≡ with_leg (ledger self.old) row (with_sent (progress_at (ledger self.old).legs row) start end) };

    /// Tells how the leg of a row ended.
    fn close(&mut self, row: u32, ending: Ending)
        requires { row < length (ledger self.old).legs }
        ensures { ledger self.new
            ≡ with_leg (ledger self.old) row (with_ending (progress_at (ledger self.old).legs row) ending) };
}
