//! One member in its group.

ghost use Rattle.std.specs.Prelude.{◌≡◌, ◌+◌, ◌-◌, ◌*◌, ◌≤◌, None};
ghost use Rattle.ats_num.specs.declared.time.TheConstants.{PS_PER_SECOND, END};
ghost use Rattle.ats_num.specs.declared.wire.TheConstants.{MAX_WIRE_BITS};
ghost use Rattle.ats_num.specs.Division.{ceiling};
ghost use Rattle.ats_num.specs.Rate.{IsRate};
ghost use Rattle.ats_streams.specs.Traffic.{IsRuled};
ghost use Rattle.ats_group.specs.declared.member.TheConstants.{MAX_RESIDENCE_NS};
ghost use Rattle.ats_group.specs.Group.{InTime};
ghost use Rattle.ats_lrq.specs.Spacing.{free_from};
ghost use Rattle.ats_lrq.specs.Fold.{verdict_on};
ghost use Rattle.ats_lrq.specs.SpacedMember.{IsSpacedMember, Accepts, MayAccept, member_after};

use crate::last_frame::LastFrame;
use ats_group::{Member, Verdict};
use ats_num::time::{PS_PER_NS, PS_PER_SECOND};
use ats_num::{Ps, Rate, ceil_div, wire_bits};

/// A member, and the frame of it that its group accepted last.
#[derive(Clone, Copy, Debug)]
pub struct SpacedMember {
    /// The member.
    pub member: Member,
    /// Its last accepted frame, where there is one.
    pub last: Option<LastFrame>,
}

impl SpacedMember {
    /// A member of whose frames none was accepted.
    pub fn new(member: &Member) -> SpacedMember
        requires { IsRuled member.now.declared }
        ensures spaced { IsSpacedMember result }
        ensures member { result.member ≡ member.now }
        ensures last { result.last ≡ None }
    {
        SpacedMember {
            member: *member,
            last: None,
        }
    }

    /// The verdict on a frame that arrives in a group with this residence and this group eligibility time.
    pub fn verdict(&self, residence_ns: u32, time: Ps, arrival: Ps, octets: u32) -> Verdict
        requires spaced { IsSpacedMember self.now }
        requires residence { residence_ns ≤ MAX_RESIDENCE_NS }
        requires time { time.0 ≤ END }
        requires arrival { arrival.0 ≤ END - PS_PER_SECOND }
        ensures value { result
            ≡ verdict_on self.now.member.declared residence_ns time.0 self.now.last arrival.0 octets }
        ensures acceptable { MayAccept octets result }
        ensures in_time { InTime result arrival.0 }
    {
        if !self.member.declared.allows(octets) {
            return Verdict::Size;
        }
        let eligible = arrival.0.max(time.0).max(self.free_from());
        let latest = arrival.0 + PS_PER_NS * u64::from(residence_ns);
        if eligible <= latest {
            Verdict::Eligible(Ps(eligible))
        } else {
            Verdict::Late(Ps(eligible))
        }
    }

    /// The member once a frame of so many octets was accepted, eligible at this time.
    pub fn after(&self, eligible: Ps, octets: u32) -> SpacedMember
        requires spaced { IsSpacedMember self.now }
        requires acceptable { Accepts octets eligible.0 }
        ensures value { result ≡ member_after self.now eligible octets }
        ensures spaced { IsSpacedMember result }
    {
        let last = LastFrame {
            eligible,
            bits: wire_bits(octets),
        };
        SpacedMember {
            member: self.member,
            last: Some(last),
        }
    }

    // The first time at which a frame keeps its distance from the last accepted one.
    fn free_from(&self) -> u64
        requires { IsSpacedMember self.now }
        ensures value { result ≡ free_from self.now.member.declared.rate self.now.last }
        ensures bounded { result ≤ END + PS_PER_SECOND * MAX_WIRE_BITS }
    {
        match self.last {
            Some(last) => last.eligible.0 + quotient(last.bits, self.member.declared.rate),
            None => 0,
        }
    }
}

// The quotient of a length in bits and a rate, in picoseconds, rounded up.
fn quotient(bits: u64, rate: Rate) -> u64
    requires rate { IsRate rate }
    requires bits { bits ≤ MAX_WIRE_BITS }
    ensures value { result ≡ ceiling (PS_PER_SECOND * bits) rate }
    ensures bounded { result ≤ PS_PER_SECOND * bits }
{
    ceil_div(u128::from(PS_PER_SECOND * bits), u128::from(rate.bps())) as u64
}
