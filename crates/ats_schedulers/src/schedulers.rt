//! The schedulers of a network.

ghost use Rattle.std.specs.Prelude.{◌≡◌, ℕ, ◌-◌, ◌*◌, ◌<◌, ◌≤◌, length, All, IfOk, slice_index_or};
ghost use Rattle.ats_group.specs.GroupsState.{AreMembers, member_at};
ghost use Rattle.ats_group.specs.declared.member.TheConstants.{MAX_RESIDENCE_NS};
ghost use Rattle.ats_network.specs.Senders.{sender_at};
ghost use Rattle.ats_schedulers.specs.Schedulers.{IsHop, leg_ports, member_behind, members_of, residences_of};
ghost use Rattle.ats_schedulers.specs.Schedulers.{scheduler_of};

use crate::lists::{first_place, listed, residences_of};
use ats_group::Member;
use ats_network::Network;
use std::alloc::{AllocError, Global};
use std::marker::Model;

/// The groups of schedulers of a network, and their members. The group behind port `p` for class `c`
/// has the number `8 * p + c`. It stands at the bridge that the port leads to, and has as members
/// those streams of which a leg goes on from there and which are of this class at the port. Contracts
/// see the network.
#[derive(Drop)]
pub struct Schedulers<'a> {
    network: &'a Network,
    residence_list: Vec<u32>,
    member_list: Vec<Member>,
    firsts: Vec<u32>,
}

impl<'a> Model for Schedulers<'a> {
    ghost use Rattle.ats_network.specs.Network.{DeclaredNetwork};
    ghost use Rattle.ats_schedulers.specs.Inside.{AreSchedulers};

    ghost Value = { DeclaredNetwork };

    ghost view = { λ s. s.network.now };

    ghost invariant = { λ s. AreSchedulers s.network.now s.residence_list.items s.member_list.items s.firsts.items };
}

impl<'a> Schedulers<'a> {
    /// The schedulers of a network. It takes time and memory linear in the number of ports of the network and of its
    /// streams. `AllocError` where there is no memory for them.
    pub fn new(alloc: Global, network: &'a Network) -> Result<Self, AllocError>
        ensures { IfOk result (λ schedulers. schedulers ≡ network.now) }
    {
        let residence_list = residences_of(alloc, network)?;
        let (member_list, firsts) = listed(alloc, network.topology(), network.streams())?;
        Ok(Schedulers {
            network,
            residence_list,
            member_list,
            firsts,
        })
    }

    /// The maximum residence time of each group in nanoseconds: that of the bridge that its port
    /// leads to, 0 where this is a station.
    pub fn residences(&self) -> &[u32]
        ensures value { result.now ≡ residences_of self.now }
        ensures each { length result.now ≡ 8 * length self.now.topology.ports }
        ensures most { All (λ (r : ℕ). r ≤ MAX_RESIDENCE_NS) result.now }
    {
        self.residence_list.as_slice()
    }

    /// The members of all groups: for each stream, leg after leg, and for each port of a leg but its last, the
    /// scheduler behind this port, with the rate and burst that it has there.
    pub fn members(&self) -> &[Member]
        ensures value { result.now ≡ members_of self.now }
        ensures members { AreMembers (8 * length self.now.topology.ports) result.now }
    {
        self.member_list.as_slice()
    }

    /// The place, among the members, of the scheduler that a stream's frame meets before it comes to
    /// a hop of a leg, both counted from 0: any hop but the first. It takes no memory.
    pub fn scheduler(&self, stream: u32, leg: u32, hop: u32) -> u32
        requires { IsHop self.now stream leg hop }
        ensures place { result ≡ scheduler_of self.now stream leg hop }
        ensures within { result < length (members_of self.now) }
        ensures member { member_at (members_of self.now) result ≡ member_behind self.now.topology
            (sender_at self.now stream)
            (slice_index_or (leg_ports self.now stream leg) (hop - 1) 0) }
    {
        let firsts = self.firsts.as_slice();
        let ports_before = first_place(&self.network.streams()[stream as usize], leg);
        firsts[stream as usize] + (ports_before - leg) + (hop - 1) // each leg before has one scheduler less than ports
    }
}
