//! Pieces of lines.

ghost use Rattle.std.specs.Prelude.{◌≡◌, ◌++◌, ◌<◌, codes, decimal, length, take, OnOk};
ghost use Rattle.ats_network.specs.Listeners.{listener_text};
ghost use Rattle.ats_verdict_text.specs.Text.{measure_text, place_text};

use ats_num::Name;
use ats_port_names::write_port;
use ats_topology::Topology;
use itoa::{Buffer, Integer};
use std::alloc::AllocError;

// A word, and a number behind it.
pub(crate) fn write_number<I: Integer + Drop>(
    out: &mut Vec<u8>,
    word: &[u8],
    n: I,
) -> Result<(), AllocError>
    ensures written { OnOk result (out.new.items ≡ out.old.items ++ (word.now ++ I.text n)) }
    ensures front { take (length out.old.items) out.new.items ≡ out.old.items }
{
    let mut buffer = Buffer::new();
    out.extend_from_slice(word)?;
    out.extend_from_slice(buffer.format(n).as_bytes())?;
    Ok(())
}

// A word, and a port and a class behind it.
pub(crate) fn write_place(
    out: &mut Vec<u8>,
    word: &[u8],
    topology: &Topology,
    port: u32,
    class: u8,
) -> Result<(), AllocError>
    requires { port < length topology.now.ports }
    ensures written { OnOk result (out.new.items ≡ out.old.items ++ (word.now ++ place_text topology.now port class)) }
    ensures front { take (length out.old.items) out.new.items ≡ out.old.items }
{
    out.extend_from_slice(word)?;
    write_port(out, topology, port)?;
    write_number(out, b" ", class)
}

// A word, a port and a class, and a number.
pub(crate) fn write_measure(
    out: &mut Vec<u8>,
    word: &[u8],
    topology: &Topology,
    port: u32,
    class: u8,
    n: u128,
) -> Result<(), AllocError>
    requires { port < length topology.now.ports }
    ensures written { OnOk result
        (out.new.items ≡ out.old.items ++ (word.now ++ measure_text topology.now port class n)) }
    ensures front { take (length out.old.items) out.new.items ≡ out.old.items }
{
    write_place(out, word, topology, port, class)?;
    write_number(out, b" ", n)
}

// A word, a listener of the stream with this name, and a number.
pub(crate) fn write_named(
    out: &mut Vec<u8>,
    word: &[u8],
    stream: &Name,
    listener: &Option<Name>,
    n: u128,
) -> Result<(), AllocError>
    ensures written { OnOk result (out.new.items
        ≡ out.old.items ++ (word.now ++ listener_text stream.now listener.now ++ codes " " ++ decimal n)) }
    ensures front { take (length out.old.items) out.new.items ≡ out.old.items }
{
    out.extend_from_slice(word)?;
    write_listener(out, stream, listener)?;
    write_number(out, b" ", n)
}

// The name of a stream, and behind it that of the station of a further listener.
fn write_listener(
    out: &mut Vec<u8>,
    stream: &Name,
    listener: &Option<Name>,
) -> Result<(), AllocError>
    ensures written { OnOk result (out.new.items ≡ out.old.items ++ listener_text stream.now listener.now) }
    ensures front { take (length out.old.items) out.new.items ≡ out.old.items }
{
    out.extend_from_slice(stream.bytes())?;
    let Some(station) = listener else {
        return Ok(());
    };
    out.extend_from_slice(b" ")?;
    out.extend_from_slice(station.bytes())?;
    Ok(())
}
