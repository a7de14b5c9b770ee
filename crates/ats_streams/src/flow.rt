//! Declared flows of lowest priority.

ghost use Rattle.std.specs.Prelude.{◌≡◌, ◌≤◌, length, not, IsTrue, IfOk};
ghost use Rattle.std.specs.Result.{result_err};
ghost use Rattle.ats_streams.specs.Branches.{is_bad_route};
ghost use Rattle.ats_streams.specs.Flow.{IsFlow, declared_flow, flow_fault};

use crate::branch::is_bad_count;
use crate::fault::StreamFault;
use crate::path::is_path;
use crate::rules::is_frame_size;
use ats_num::Name;
use std::marker::Model;

/// A declared flow: frames without a class of their own, which no scheduler holds back. It keeps
/// the rules that `Flow::new` tests, and contracts see it as the record of what it declares.
#[derive(Debug, Drop)]
pub struct Flow {
    name: Name,
    path: Vec<u32>,
    max_octets: u32,
}

impl Model for Flow {
    ghost use Rattle.ats_streams.specs.Flow.{DeclaredFlow, IsFlow, declared_flow};

    ghost Value = { DeclaredFlow };

    ghost view = { λ f. declared_flow f.name f.path.items f.max_octets };

    ghost invariant = { λ f. IsFlow (declared_flow f.name f.path.items f.max_octets) };
}

impl Flow {
    /// The flow with this name, the ports of its path and its greatest octets, counted with the
    /// frame check sequence. It holds exactly these, and takes no memory.
    ///
    /// # Errors
    ///
    /// `BadSizes` where the octets are not 64 to 2000, and else `Limit` where the path has no port or more than 64.
    pub fn new(name: Name, path: Vec<u32>, max_octets: u64) -> Result<Self, StreamFault>
        ensures fault { result_err result ≡ flow_fault (declared_flow name path.items max_octets) }
        ensures value { IfOk result (λ flow. flow ≡ declared_flow name path.items max_octets) }
        ensures rules { IfOk result IsFlow }
    {
        if !is_frame_size(max_octets) {
            return Err(StreamFault::BadSizes);
        }
        if !is_path(&path) {
            return Err(StreamFault::Limit);
        }
        Ok(Flow {
            name,
            path,
            max_octets: max_octets as u32,
        })
    }

    /// The flow's name.
    pub fn name(&self) -> Name
        ensures { result ≡ self.now.name }
    {
        self.name
    }

    /// The numbers of the ports of its path, in order.
    pub fn path(&self) -> &[u32]
        ensures value { result.now ≡ self.now.path }
        ensures rules { IsFlow self.now }
    {
        self.path.as_slice()
    }

    /// Whether its path has at most so many ports.
    pub fn has_short_path(&self, most: u32) -> bool
        ensures value { result ≡ not (is_bad_route most self.now.path) }
        ensures short { IsTrue result → length self.now.path ≤ most }
        ensures rules { IsFlow self.now }
    {
        !is_bad_count(self.path.len(), most as usize)
    }

    /// The most octets of its frames, counted with the frame check sequence.
    pub fn max_octets(&self) -> u32
        ensures value { result ≡ self.now.max_octets }
        ensures rules { IsFlow self.now }
    {
        self.max_octets
    }
}
