//! Streams that ask to enter.

ghost use Rattle.std.specs.Prelude.{◌≡◌, IfOk, OnOk, OnErr};
ghost use Rattle.ats_num.specs.Failure.{Gives, IsWithin};
ghost use Rattle.ats_streams.specs.Stream.{with_class};
ghost use Rattle.ats_network.specs.Pushes.{with_stream};
ghost use Rattle.ats_requests.specs.Admission.{admit, admit_lowest};
ghost use Rattle.ats_requests.specs.Requests.{MayEnter};
ghost use Rattle.ats_requests.specs.declared.denied.Denied.TheVariants.{Because};
ghost use Rattle.ats_admission.specs.Sessions.{IsSession};

use crate::entering::{enter, leave};
use crate::judging::lowest;
use ats_admission_state::Kept;
use ats_network::Network;
use ats_num::Failure;
use ats_requests::Denied;
use ats_streams::Stream;
use ats_tally::Reason;

/// Adds a stream as the last one, where a certificate holds for the network with it. The sum of its least bounds.
///
/// # Errors
///
/// The network stays as it was. What stands against the stream, or `Failure::NoMemory` where memory runs out.
pub(crate) fn admit_stream(
    network: &mut Network,
    kept: &mut Kept,
    stream: Stream,
) -> Result<u128, Failure<Denied>>
    requires session { IsSession network.old kept.old }
    requires enters { MayEnter network.old stream }
    ensures answer { Gives result (admit network.old stream) }
    ensures ok { OnOk result (network.new ≡ with_stream network.old stream) }
    ensures err { OnErr result (network.new ≡ network.old) }
    ensures session { IsSession network.new kept.new }
{
    let name = stream.name();
    let number = enter(network, stream)?;
    match kept.judge(network, number) {
        Ok(sum) => Ok(sum),
        Err(failure) => {
            leave(network, kept, number, &name);
            Err(because(failure))
        }
    }
}

/// Adds a stream as the last one with the lowest class at each of its ports for which a certificate holds. That
/// class, and the sum of the stream's least bounds.
///
/// # Errors
///
/// The network stays as it was. What stands against the stream, or `Failure::NoMemory` where memory runs out.
pub(crate) fn admit_with_lowest(
    network: &mut Network,
    kept: &mut Kept,
    stream: Stream,
) -> Result<(u8, u128), Failure<Denied>>
    requires session { IsSession network.old kept.old }
    requires enters { MayEnter network.old stream }
    ensures answer { Gives result (admit_lowest network.old stream) }
    ensures ok { IfOk result (λ given. network.new ≡ with_stream network.old (with_class stream given.0)) }
    ensures err { OnErr result (network.new ≡ network.old) }
    ensures session { IsSession network.new kept.new }
{
    let name = stream.name();
    let number = enter(network, stream)?;
    match lowest(network, kept, number) {
        Ok(given) => Ok(given),
        Err(failure) => {
            leave(network, kept, number, &name);
            Err(failure)
        }
    }
}

// Why a stream is not admitted, from what its judgement gave in place of a sum.
fn because(failure: Failure<Reason>) -> Failure<Denied>
    ensures { IsWithin (λ reason denied. denied ≡ Because reason) failure result }
{
    match failure {
        Failure::Fault(reason) => Failure::Fault(Denied::Because(reason)),
        Failure::NoMemory => Failure::NoMemory,
    }
}
