//! What a node decides on a frame that comes to it.

ghost use Rattle.std.specs.Prelude.{◌≡◌};
ghost use Rattle.ats_run_records.specs.Progress.{progress_at};
ghost use Rattle.ats_engine_steps.specs.Conditions.{MayCome};
ghost use Rattle.ats_engine_steps.specs.Steps.{verdict_now, groups_now};

use crate::legs::class_of;
use ats_group::{Groups, Verdict};
use ats_network::Network;
use ats_num::Ps;
use ats_run_records::{Records, Store};
use ats_schedulers::Schedulers;

/// The verdict on a frame that comes now to the next port of a leg, by the group behind the port
/// before.
pub(crate) fn judge<S: Store>(
    net: &Network,
    schedulers: &Schedulers,
    records: &Records<S>,
    groups: &mut Groups,
    now: Ps,
    row: u32,
) -> Verdict
    requires schedulers { schedulers.now ≡ net.now }
    requires may_come { MayCome net.now records.now.legs groups.old now.0 row }
    ensures verdict { result ≡ verdict_now net.now groups.old (progress_at records.now.legs row) now.0 }
    ensures groups { groups.new ≡ groups_now net.now groups.old (progress_at records.now.legs row) now.0 }
{
    let hops = records.hops(row);
    if hops == 0 {
        return Verdict::Eligible(now);
    }
    let release = records.release(row);
    let leg = records.leg(row);
    if class_of(net, release.sender, leg, hops - 1) != 0 {
        let member = schedulers.scheduler(release.sender, leg, hops);
        return groups.process(member, now, release.octets);
    }
    if net.sender(release.sender).allows(release.octets) {
        Verdict::Eligible(now)
    } else {
        Verdict::Size
    }
}
