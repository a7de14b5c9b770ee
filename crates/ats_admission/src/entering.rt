//! Streams that come into a network and leave it, judged or not.

ghost use Rattle.std.specs.Prelude.{◌≡◌, length, Some, None, IfOk, IfErr, OnOk, OnErr};
ghost use Rattle.ats_num.specs.Failure.{IsDue};
ghost use Rattle.ats_num.specs.Places.{place_of};
ghost use Rattle.ats_network.specs.Pushes.{with_stream};
ghost use Rattle.ats_network.specs.Tables.{stream_names};
ghost use Rattle.ats_requests.specs.Admission.{entry_fault};
ghost use Rattle.ats_requests.specs.Entry.{by_fault};
ghost use Rattle.ats_requests.specs.Requests.{MayEnter};
ghost use Rattle.ats_requests.specs.declared.denied.Denied.TheVariants.{NameTaken, Limit};
ghost use Rattle.ats_admission_shares.specs.PortShares.{without_at};
ghost use Rattle.ats_admission.specs.Sessions.{IsPending, IsSession};

use ats_admission_state::Kept;
use ats_network::{Network, PushFault};
use ats_num::{Failure, Name};
use ats_requests::Denied;
use ats_streams::Stream;

/// Adds a stream as the last one, whether a certificate holds for the network with it or not. Its number.
///
/// # Errors
///
/// Nothing changes. What stands against the entry, or `Failure::NoMemory` where memory runs out.
pub(crate) fn enter(network: &mut Network, stream: Stream) -> Result<u32, Failure<Denied>>
    requires { MayEnter network.old stream }
    ensures number { IfOk result (λ number. number ≡ length network.old.streams) }
    ensures ok { OnOk result (network.new ≡ with_stream network.old stream) }
    ensures free { OnOk result (entry_fault network.old stream ≡ None) }
    ensures fault { IfErr result (λ failure. IsDue failure (entry_fault network.old stream)) }
    ensures err { OnErr result (network.new ≡ network.old) }
{
    let number = network.streams().len() as u32;
    match network.push_stream(stream) {
        Ok(()) => Ok(number),
        Err(Failure::NoMemory) => Err(Failure::NoMemory),
        Err(Failure::Fault(fault)) => Err(Failure::Fault(denied(fault))),
    }
}

/// Takes out the last stream, with this number and name, of which nothing is kept, and without which a certificate
/// holds. It takes no memory.
pub(crate) fn leave(network: &mut Network, kept: &mut Kept, number: u32, name: &Name)
    requires named { place_of name.now (stream_names network.old.streams) ≡ Some number }
    requires pending { IsPending network.old number kept.old }
    ensures network { network.new ≡ without_at network.old number }
    ensures session { IsSession network.new kept.new }
{
    if let Some(stream) = network.take_stream(name) {
        kept.renew(network, stream.ports());
    }
}

/// Takes out the stream with this number and name from a session's network. The others keep their order. It takes no
/// memory.
pub(crate) fn take_out(network: &mut Network, kept: &mut Kept, number: u32, name: &Name)
    requires named { place_of name.now (stream_names network.old.streams) ≡ Some number }
    requires session { IsSession network.old kept.old }
    ensures network { network.new ≡ without_at network.old number }
    ensures session { IsSession network.new kept.new }
{
    if let Some(stream) = network.take_stream(name) {
        kept.take(network, number, &stream);
    }
}

/// The number of the stream with this name; `None` exactly where no stream has it, also where a flow does.
pub(crate) fn stream_named(network: &Network, name: &Name) -> Option<u32>
    ensures { result ≡ place_of name.now (stream_names network.now.streams) }
{
    let number = network.sender_named(name)?;
    if network.sender(number).is_stream() {
        Some(number)
    } else {
        None
    }
}

// Why a stream without an identity is not added.
fn denied(fault: PushFault) -> Denied
    ensures { result ≡ by_fault NameTaken NameTaken Limit fault }
{
    match fault {
        PushFault::NameTaken => Denied::NameTaken,
        PushFault::IdentityTaken => Denied::NameTaken,
        PushFault::Limit => Denied::Limit,
    }
}
