//! All groups of a network, and their members.

ghost use Rattle.std.specs.Prelude.{◌≡◌, ℕ, ◌-◌, ◌<◌, ◌≤◌, length, All, IfOk};
ghost use Rattle.ats_num.specs.declared.time.TheConstants.{PS_PER_SECOND, END};
ghost use Rattle.ats_group.specs.declared.member.TheConstants.{MAX_RESIDENCE_NS};
ghost use Rattle.ats_group.specs.Group.{InTime};
ghost use Rattle.ats_group.specs.GroupsState.{opened, verdict_of, value_after, time_at, first_empties, AreGroups};
ghost use Rattle.ats_group.specs.GroupsState.{AreMembers, AreRuled};
ghost use Rattle.ats_group.specs.MemberScheduler.{IsMemberScheduler, groups_from, members_of, empties_of, IsKept};

use crate::member::Member;
use crate::member_scheduler::MemberScheduler;
use crate::verdict::Verdict;
use ats_num::Ps;
use std::alloc::{AllocError, Global};
use std::marker::Model;

/// The groups of schedulers of a network. Contracts see the residences and the members as they were given, the group
/// eligibility time of each group, and the scaled bucket-empty time of each member.
#[derive(Drop)]
pub struct Groups {
    residences_ns: Vec<u32>,
    times: Vec<Ps>,
    schedulers: Vec<MemberScheduler>,
}

impl Model for Groups {
    ghost use Rattle.ats_group.specs.GroupsState.{GroupsState};

    ghost Value = { GroupsState };

    ghost use Rattle.ats_group.specs.MemberScheduler.{groups_from, IsKept};

    ghost view = { λ g. groups_from g.residences_ns.items g.times.items g.schedulers.items };

    ghost invariant = { λ g. IsKept g.residences_ns.items g.times.items g.schedulers.items };
}

impl Groups {
    /// Opens one group for each maximum residence time (at most 1,000,000,000 ns), and a scheduler
    /// for each member. Group eligibility times are 0 at first, and buckets are full at time 0.
    /// Conditions: a member names one of these groups, and its declaration keeps the rules of
    /// `ats_streams`. `AllocError` where memory runs out.
    pub fn open(
        alloc: Global,
        residences_ns: &[u32],
        members: &[Member],
    ) -> Result<Groups, AllocError>
        requires residences { All (λ (r : ℕ). r ≤ MAX_RESIDENCE_NS) residences_ns.now }
        requires members { AreMembers (length residences_ns.now) members.now }
        ensures value { IfOk result (λ groups. groups ≡ opened residences_ns.now members.now) }
        ensures groups { IfOk result AreGroups }
    {
        let schedulers = schedulers_of(alloc, members)?;
        Ok(Groups {
            residences_ns: Vec::from_slice(alloc, residences_ns)?,
            times: vec![in alloc; Ps(0); residences_ns.len()]?,
            schedulers,
        })
    }

    /// Takes a frame of a member through its group. A frame that its declaration does not allow is
    /// `Size`. For any other the member's scheduler proposes an eligibility time: one that lies
    /// within the maximum residence time makes the frame `Eligible`, sets the group eligibility
    /// time and charges the member's bucket; a later one makes it `Late`. Frames that are not
    /// eligible leave no trace. It takes no memory, and arrivals are at most `END` less a second.
    pub fn process(&mut self, member: u32, arrival: Ps, octets: u32) -> Verdict
        requires member { member < length self.old.members }
        requires arrival { arrival.0 ≤ END - PS_PER_SECOND }
        ensures verdict { result ≡ verdict_of self.old member arrival.0 octets }
        ensures value { self.new ≡ value_after self.old member arrival.0 octets }
        ensures in_time { InTime result arrival.0 }
        ensures members { self.new.members ≡ self.old.members }
        ensures residences { self.new.residences_ns ≡ self.old.residences_ns }
        ensures groups { AreGroups self.new }
    {
        judge(
            &self.residences_ns,
            &mut self.times,
            &mut self.schedulers,
            member as usize,
            arrival,
            octets,
        )
    }

    /// The group eligibility time of a group.
    pub fn group_time(&self, group: u32) -> Ps
        requires { group < length self.now.times }
        ensures value { result.0 ≡ time_at self.now.times group }
        ensures bounded { result.0 ≤ END }
    {
        self.times[group as usize]
    }
}

fn schedulers_of(alloc: Global, members: &[Member]) -> Result<Vec<MemberScheduler>, AllocError>
    requires { AreRuled members.now }
    ensures members { IfOk result (λ schedulers. members_of schedulers.items ≡ members.now) }
    ensures empties { IfOk result (λ schedulers. empties_of schedulers.items ≡ first_empties members.now) }
    ensures schedulers { IfOk result (λ schedulers. All IsMemberScheduler schedulers.items) }
{
    let mut schedulers = Vec::with_capacity(alloc, members.len())?;
    for member in members {
        schedulers.push(MemberScheduler::new(member))?;
    }
    Ok(schedulers)
}

/// Judges a frame over the lists that a `Groups` holds.
fn judge(
    residences_ns: &[u32],
    times: &mut [Ps],
    schedulers: &mut [MemberScheduler],
    member: usize,
    arrival: Ps,
    octets: u32,
) -> Verdict
    requires kept { IsKept residences_ns.now times.old schedulers.old }
    requires member { member < length schedulers.old }
    requires arrival { arrival.0 ≤ END - PS_PER_SECOND }
    ensures verdict { let old = groups_from residences_ns.now times.old schedulers.old in
        result ≡ verdict_of old member arrival.0 octets }
    ensures value { let old = groups_from residences_ns.now times.old schedulers.old in
        groups_from residences_ns.now times.new schedulers.new ≡ value_after old member arrival.0 octets }
    ensures in_time { InTime result arrival.0 }
    ensures kept { IsKept residences_ns.now times.new schedulers.new }
{
    let scheduler = schedulers[member];
    let group = scheduler.member.group as usize;
    let verdict = scheduler.verdict(residences_ns[group], times[group], arrival, octets);
    if let Verdict::Eligible(eligible) = verdict {
        times[group] = eligible;
        schedulers[member] = scheduler.after(eligible, octets);
    }
    verdict
}
