//! What ports hold of each class as the moments of a run pass, and the peaks.

ghost use Rattle.std.specs.Prelude.{◌≡◌, ◌+◌, ◌^◌, ◌<◌, ◌≤◌, length, IfOk, All};
ghost use Rattle.ats_trace.specs.Run.{IsIdeal};
ghost use Rattle.ats_buffer.specs.Moments.{AreOrdered};
ghost use Rattle.ats_buffer.specs.Levels.{AreLevels, IsNext, level_after};
ghost use Rattle.ats_buffer.specs.Occupancy.{ArePeaks, HasPlace};

use crate::moments::{Moment, moments_in_order};
use ats_certificate::Row;
use ats_class_table::PortClassTable;
use ats_network::Network;
use ats_trace::Run;
use std::alloc::{AllocError, Global};

/// What a port holds of a class, in bits.
#[derive(Clone, Copy)]
pub struct Level {
    /// After the last moment so far.
    pub held: u64,
    /// The most so far.
    pub peak: u64,
}

impl Level {
    // What is held after one moment more. Conditions: the sum fits, and no more ends than is held.
    fn after(self, moment: &Moment) -> Level
        requires { IsNext self moment.now }
        ensures { result ≡ level_after self moment.now }
    {
        if !moment.comes {
            return Level {
                held: self.held - moment.bits,
                peak: self.peak,
            };
        }
        let held = self.held + moment.bits;
        Level {
            held,
            peak: self.peak.max(held),
        }
    }
}

/// For each of these rows the greatest occupancy of its port and class, in bits, over all times of a legal run: 0 where
/// no frame of the class comes to the port. A copy counts like any other frame. A frame that comes at a time is there
/// at that time, and one whose transmission ends then is not. It takes the time of sorting two moments for each hop of
/// the legs of the run's frames. `AllocError` where there is no memory for these, and as much again.
pub fn peaks(
    alloc: Global,
    network: &Network,
    run: &Run,
    rows: &[Row],
) -> Result<Vec<u64>, AllocError>
    requires legal { IsIdeal network.now run.now }
    requires places { All (HasPlace (length network.now.topology.ports)) rows.now }
    ensures { IfOk result (λ peaks. ArePeaks network.now run.now rows.now peaks.items) }
{
    let moments = moments_in_order(alloc, network, run)?;
    let levels = levels_after(alloc, network.topology().ports().len(), &moments)?;
    let mut peaks = Vec::with_capacity(alloc, rows.len())?;
    for row in rows {
        peaks.push(levels.get(row.port, row.class).peak)?;
    }
    Ok(peaks)
}

// What each of so many ports holds of each class after these moments, in their order.
fn levels_after(
    alloc: Global,
    ports: usize,
    moments: &[Moment],
) -> Result<PortClassTable<Level>, AllocError>
    requires few { ports ≤ 4096 }
    requires ordered { AreOrdered ports moments.now }
    ensures { IfOk result (AreLevels ports moments.now) }
{
    let mut levels = PortClassTable::new(alloc, ports, Level { held: 0, peak: 0 })?;
    for moment in moments {
        let level = levels.get(moment.port, moment.class);
        levels.set(moment.port, moment.class, level.after(moment));
    }
    Ok(levels)
}
