//! Judgement of a stream with each class.

ghost use Rattle.std.specs.Prelude.{◌≡◌, IfOk, IfErr, OnOk, OnErr};
ghost use Rattle.ats_num.specs.Failure.{IsDue};
ghost use Rattle.ats_network.specs.Edits.{with_class_at};
ghost use Rattle.ats_certificate.specs.Used.{stream_classes};
ghost use Rattle.ats_admission_state.specs.Kept.{IsKept};
ghost use Rattle.ats_admission.specs.Judged.{AreSameBut, IsGiven, lowest_at, no_class};
ghost use Rattle.ats_admission.specs.Sessions.{IsPending};

use ats_admission_state::Kept;
use ats_network::Network;
use ats_num::Failure;
use ats_requests::Denied;
use ats_tally::Reason;

/// Gives the stream with this number, at each of its ports, the first of the classes 1 to 7 with which no reason
/// comes. The class, and the sum of the stream's least bounds.
///
/// # Errors
///
/// `NoClass` with the reason for each class, exactly where none is free of one, or `Failure::NoMemory` where memory
/// runs out. The stream then has some class.
pub(crate) fn lowest(
    network: &mut Network,
    kept: &mut Kept,
    stream: u32,
) -> Result<(u8, u128), Failure<Denied>>
    requires { IsPending network.old stream kept.old }
    ensures given { IfOk result (λ given. IsGiven network.old stream given.0 given.1) }
    ensures network { IfOk result (λ given. network.new ≡ with_class_at network.old stream given.0) }
    ensures kept { OnOk result (IsKept network.new kept.new) }
    ensures none { IfErr result (λ failure. IsDue failure
        (no_class (lowest_at network.old stream stream_classes))) }
    ensures others { OnErr result (AreSameBut stream network.old network.new) }
    ensures pending { OnErr result (IsPending network.new stream kept.new) }
{
    let mut reasons = [Reason::Overloaded {
        port: 0,
        class: 0,
        load: 0,
    }; 7];
    for class in 1..8 {
        network.set_class(stream, class);
        match kept.judge(network, stream) {
            Ok(sum) => return Ok((class, sum)),
            Err(Failure::Fault(reason)) => reasons[class as usize - 1] = reason,
            Err(Failure::NoMemory) => return Err(Failure::NoMemory),
        }
    }
    Err(Failure::Fault(Denied::NoClass(reasons)))
}
