//! Flows, found by their names.

ghost use Rattle.std.specs.Prelude.{◌≡◌, ◌<◌, [], ◌∷◌, ◌++◌, length, None, IfSome, OnOk, OnErr};
ghost use Rattle.ats_num.specs.Places.{place_of};
ghost use Rattle.ats_network.specs.Tables.{flow_names};

use crate::network::MAX_FLOWS;
use ats_num::{Name, NameTable};
use ats_streams::Flow;
use std::alloc::{AllocError, Global};
use std::marker::Model;

/// Flows of different names, numbered from 0 in the order in which they came. Contracts see the list of them.
#[derive(Drop)]
pub(crate) struct FlowTable {
    flows: Vec<Flow>,
    names: NameTable,
}

impl Model for FlowTable {
    ghost use Rattle.std.specs.Prelude.{List};
    ghost use Rattle.ats_streams.specs.Flow.{DeclaredFlow};
    ghost use Rattle.ats_network.specs.Tables.{AreFlows};

    ghost Value = { List DeclaredFlow };

    ghost view = { λ t. t.flows.items };

    ghost invariant = { λ t. AreFlows t.flows.items t.names };
}

impl FlowTable {
    /// No flows.
    pub(crate) fn new(alloc: Global) -> Self
        ensures { result ≡ [] }
    {
        FlowTable {
            flows: Vec::new(alloc),
            names: NameTable::new(alloc),
        }
    }

    /// The flows.
    pub(crate) fn as_slice(&self) -> &[Flow]
        ensures { result.now ≡ self.now }
    {
        self.flows.as_slice()
    }

    /// The number of the flow with this name; `None` exactly where none has it.
    pub(crate) fn place(&self, name: &Name) -> Option<u32>
        ensures place { result ≡ place_of name.now (flow_names self.now) }
        ensures within { IfSome result (λ place. place < length self.now) }
    {
        self.names.place(name)
    }

    /// Adds a flow at the end. `AllocError` leaves the table as it was.
    pub(crate) fn push(&mut self, flow: Flow) -> Result<(), AllocError>
        requires absent { place_of flow.name (flow_names self.old) ≡ None }
        requires room { length self.old < MAX_FLOWS }
        ensures ok { OnOk result (self.new ≡ self.old ++ flow ∷ []) }
        ensures err { OnErr result (self.new ≡ self.old) }
    {
        self.flows.reserve(1)?;
        self.names.push(flow.name())?;
        self.flows.push_reserved(flow);
        Ok(())
    }
}
