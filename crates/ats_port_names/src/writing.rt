//! The name of a port, written.

ghost use Rattle.std.specs.Prelude.{◌≡◌, ◌++◌, ◌<◌, length, take, OnOk};
ghost use Rattle.ats_port_names.specs.PortName.{port_name};

use ats_topology::Topology;
use std::alloc::AllocError;

/// Appends the name of a port: that of the node that it leaves, `>`, and that of the node that it
/// leads to. What stood in `out` stays in front; after `AllocError` nothing is said of what is behind
/// it.
pub fn write_port(out: &mut Vec<u8>, topology: &Topology, port: u32) -> Result<(), AllocError>
    requires { port < length topology.now.ports }
    ensures written { OnOk result (out.new.items ≡ out.old.items ++ port_name topology.now port) }
    ensures front { take (length out.old.items) out.new.items ≡ out.old.items }
{
    let ends = topology.ports()[port as usize];
    let nodes = topology.nodes();
    out.extend_from_slice(nodes[ends.from as usize].name.bytes())?;
    out.push(b'>')?;
    out.extend_from_slice(nodes[ends.to as usize].name.bytes())?;
    Ok(())
}
