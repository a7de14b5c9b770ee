//! All groups of a network, and their members.

ghost use Rattle.std.specs.Prelude.{◌≡◌, ℕ, ◌-◌, ◌<◌, ◌≤◌, length, All, IfOk};
ghost use Rattle.ats_num.specs.declared.time.TheConstants.{PS_PER_SECOND, END};
ghost use Rattle.ats_group.specs.declared.member.TheConstants.{MAX_RESIDENCE_NS};
ghost use Rattle.ats_group.specs.Group.{InTime};
ghost use Rattle.ats_group.specs.GroupsState.{AreMembers, AreRuled, time_at};
ghost use Rattle.ats_lrq.specs.GroupsState.{AreLrqGroups, no_last, opened, verdict_of, value_after};
ghost use Rattle.ats_lrq.specs.SpacedMember.{IsSpacedMember, IsKept, groups_from, lasts_of, members_of};

use crate::spaced_member::SpacedMember;
use ats_group::{Member, Verdict};
use ats_num::Ps;
use std::alloc::{AllocError, Global};
use std::marker::Model;

/// The groups of length-rate-quotient regulators of a network. Contracts see the residences and the members as they
/// were given, the group eligibility time of each group, and the frame of each member that was accepted last.
#[derive(Drop)]
pub struct LrqGroups {
    residences_ns: Vec<u32>,
    times: Vec<Ps>,
    members: Vec<SpacedMember>,
}

impl Model for LrqGroups {
    ghost use Rattle.ats_lrq.specs.GroupsState.{LrqState};

    ghost Value = { LrqState };

    ghost use Rattle.ats_lrq.specs.SpacedMember.{groups_from, IsKept};

    ghost view = { λ g. groups_from g.residences_ns.items g.times.items g.members.items };

    ghost invariant = { λ g. IsKept g.residences_ns.items g.times.items g.members.items };
}

impl LrqGroups {
    /// Opens one group for each maximum residence time (at most 1,000,000,000 ns), and a place for each member. Group
    /// eligibility times are 0 at first, and no member has an accepted frame. Conditions: a member names one of these
    /// groups, and its declaration keeps the rules of `ats_streams`. `AllocError` where memory runs out.
    pub fn open(
        alloc: Global,
        residences_ns: &[u32],
        members: &[Member],
    ) -> Result<LrqGroups, AllocError>
        requires residences { All (λ (r : ℕ). r ≤ MAX_RESIDENCE_NS) residences_ns.now }
        requires members { AreMembers (length residences_ns.now) members.now }
        ensures value { IfOk result (λ groups. groups ≡ opened residences_ns.now members.now) }
        ensures groups { IfOk result AreLrqGroups }
    {
        let members = spaced_members(alloc, members)?;
        Ok(LrqGroups {
            residences_ns: Vec::from_slice(alloc, residences_ns)?,
            times: vec![in alloc; Ps(0); residences_ns.len()]?,
            members,
        })
    }

    /// Takes a frame of a member through its group. A frame that its declaration does not allow is `Size`. Any other is
    /// eligible at the least time at which it has arrived, that is not before the group eligibility time, and at which
    /// the member's rate has given the bits of its last accepted frame since that one was eligible. A time within the
    /// maximum residence time makes the frame `Eligible`: it sets the group eligibility time, and this frame is the
    /// member's last accepted one. A later time makes it `Late`. Frames that are not eligible leave no trace. It takes
    /// no memory, and arrivals are at most `END` less a second.
    pub fn process(&mut self, member: u32, arrival: Ps, octets: u32) -> Verdict
        requires member { member < length self.old.members }
        requires arrival { arrival.0 ≤ END - PS_PER_SECOND }
        ensures verdict { result ≡ verdict_of self.old member arrival.0 octets }
        ensures value { self.new ≡ value_after self.old member arrival.0 octets }
        ensures in_time { InTime result arrival.0 }
        ensures members { self.new.members ≡ self.old.members }
        ensures residences { self.new.residences_ns ≡ self.old.residences_ns }
        ensures groups { AreLrqGroups self.new }
    {
        judge(
            &self.residences_ns,
            &mut self.times,
            &mut self.members,
            member as usize,
            arrival,
            octets,
        )
    }

    /// The group eligibility time of a group.
    pub fn group_time(&self, group: u32) -> Ps
        requires { group < length self.now.times }
        ensures value { result.0 ≡ time_at self.now.times group }
        ensures bounded { result.0 ≤ END }
    {
        self.times[group as usize]
    }
}

fn spaced_members(alloc: Global, members: &[Member]) -> Result<Vec<SpacedMember>, AllocError>
    requires { AreRuled members.now }
    ensures members { IfOk result (λ spaced. members_of spaced.items ≡ members.now) }
    ensures lasts { IfOk result (λ spaced. lasts_of spaced.items ≡ no_last members.now) }
    ensures spaced { IfOk result (λ spaced. All IsSpacedMember spaced.items) }
{
    let mut spaced = Vec::with_capacity(alloc, members.len())?;
    for member in members {
        spaced.push(SpacedMember::new(member))?;
    }
    Ok(spaced)
}

/// Judges a frame over the lists that an `LrqGroups` holds.
fn judge(
    residences_ns: &[u32],
    times: &mut [Ps],
    members: &mut [SpacedMember],
    member: usize,
    arrival: Ps,
    octets: u32,
) -> Verdict
    requires kept { IsKept residences_ns.now times.old members.old }
    requires member { member < length members.old }
    requires arrival { arrival.0 ≤ END - PS_PER_SECOND }
    ensures verdict { let old = groups_from residences_ns.now times.old members.old in
        result ≡ verdict_of old member arrival.0 octets }
    ensures value { let old = groups_from residences_ns.now times.old members.old in
        groups_from residences_ns.now times.new members.new ≡ value_after old member arrival.0 octets }
    ensures in_time { InTime result arrival.0 }
    ensures kept { IsKept residences_ns.now times.new members.new }
{
    let spaced = members[member];
    let group = spaced.member.group as usize;
    let verdict = spaced.verdict(residences_ns[group], times[group], arrival, octets);
    if let Verdict::Eligible(eligible) = verdict {
        times[group] = eligible;
        members[member] = spaced.after(eligible, octets);
    }
    verdict
}
