//! What a port is told of a frame.

ghost use Rattle.std.specs.Prelude.{◌≡◌};
ghost use Rattle.ats_run_records.specs.Progress.{progress_at, last_hop};
ghost use Rattle.ats_engine_steps.specs.Conditions.{IsPlaced};
ghost use Rattle.ats_engine_steps.specs.Course.{place_of, offer_of, eligibility_of};

use crate::legs::class_of;
use ats_group::Verdict;
use ats_network::Network;
use ats_num::Ps;
use ats_run_records::{Records, Store};
use ats_transmit::Offer;

/// The port of a leg's last hop record.
pub(crate) fn place_of<S: Store>(net: &Network, records: &Records<S>, row: u32) -> u32
    requires { IsPlaced net.now records.now.legs row }
    ensures { result ≡ place_of net.now (progress_at records.now.legs row) }
{
    let hops = records.hops(row) as usize;
    let release = records.release(row);
    net.sender_leg(release.sender, records.leg(row))[hops - 1]
}

/// The time of a verdict, where the frame is eligible.
fn eligibility_of(verdict: Verdict) -> Ps
    ensures { result ≡ eligibility_of verdict }
{
    match verdict {
        Verdict::Eligible(at) => at,
        Verdict::Late(_) => Ps(0),
        Verdict::Size => Ps(0),
    }
}

/// A frame as the port of a leg's last hop record is offered it.
pub(crate) fn offer_of<S: Store>(net: &Network, records: &Records<S>, row: u32) -> Offer
    requires { IsPlaced net.now records.now.legs row }
    ensures { result ≡ offer_of net.now (progress_at records.now.legs row) }
{
    let hops = records.hops(row);
    let release = records.release(row);
    Offer {
        frame: records.frame(row),
        sender: release.sender,
        class: class_of(net, release.sender, records.leg(row), hops - 1),
        eligible: eligibility_of(records.verdict(row)),
        octets: release.octets,
    }
}
