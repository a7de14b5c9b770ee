//! One member's scheduler in its group.

ghost use Rattle.std.specs.Prelude.{◌≡◌, ◌-◌, ◌≤◌};
ghost use Rattle.ats_group.specs.Group.{verdict_on, InTime};
ghost use Rattle.ats_streams.specs.Traffic.{IsRuled};
ghost use Rattle.ats_num.specs.declared.time.TheConstants.{PS_PER_SECOND, END};
ghost use Rattle.ats_bucket.specs.Scheduler.{first_empty};
ghost use Rattle.ats_group.specs.declared.member.TheConstants.{MAX_RESIDENCE_NS};
ghost use Rattle.ats_group.specs.MemberScheduler.{IsMemberScheduler, Accepts, MayAccept, scheduler_after};

use crate::member::Member;
use crate::verdict::Verdict;
use ats_bucket::Scheduler;
use ats_num::time::PS_PER_NS;
use ats_num::{Ps, wire_bits};

/// A member and its own scheduler.
#[derive(Clone, Copy, Debug)]
pub struct MemberScheduler {
    /// The member.
    pub member: Member,
    /// Its bucket, with the declared rate and burst.
    pub bucket: Scheduler,
}

impl MemberScheduler {
    /// The scheduler of a member whose bucket is full at time 0.
    pub fn new(member: &Member) -> MemberScheduler
        requires { IsRuled member.now.declared }
        ensures scheduler { IsMemberScheduler result }
        ensures member { result.member ≡ member.now }
        ensures empty { result.bucket.empty ≡ first_empty member.now.declared.burst_bits }
    {
        MemberScheduler {
            member: *member,
            bucket: Scheduler::new(member.declared.rate, member.declared.burst_bits),
        }
    }

    /// The verdict on a frame that arrives in a group with this residence and this group eligibility time.
    pub fn verdict(&self, residence_ns: u32, time: Ps, arrival: Ps, octets: u32) -> Verdict
        requires scheduler { IsMemberScheduler self.now }
        requires residence { residence_ns ≤ MAX_RESIDENCE_NS }
        requires time { time.0 ≤ END }
        requires arrival { arrival.0 ≤ END - PS_PER_SECOND }
        ensures value { let declared = self.now.member.declared in
            let empty = self.now.bucket.empty in
            result ≡ verdict_on declared residence_ns time.0 empty arrival.0 octets }
        ensures acceptable { MayAccept self.now.bucket octets result }
        ensures in_time { InTime result arrival.0 }
    {
        if !self.member.declared.allows(octets) {
            return Verdict::Size;
        }
        let eligible = self.bucket.propose(arrival, time, wire_bits(octets));
        let latest = arrival.0 + PS_PER_NS * u64::from(residence_ns);
        if eligible.0 <= latest {
            Verdict::Eligible(eligible)
        } else {
            Verdict::Late(eligible)
        }
    }

    /// The scheduler once a frame of so many octets was accepted, eligible at this time.
    pub fn after(&self, eligible: Ps, octets: u32) -> MemberScheduler
        requires scheduler { IsMemberScheduler self.now }
        requires acceptable { Accepts self.now.bucket octets eligible.0 }
        ensures value { result ≡ scheduler_after self.now eligible.0 octets }
        ensures scheduler { IsMemberScheduler result }
    {
        let mut scheduler = *self;
        scheduler.bucket.accept(eligible, wire_bits(octets));
        scheduler
    }
}
