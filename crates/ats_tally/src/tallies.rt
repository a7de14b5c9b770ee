//! What the senders make of each port and class.

ghost use Rattle.std.specs.Prelude.{◌≡◌, ◌<◌, ◌≤◌, length, IfOk};
ghost use Rattle.ats_network.specs.Network.{IsNetwork, senders_of};
ghost use Rattle.ats_tally.specs.Tally.{IsTally};
ghost use Rattle.ats_certificate.specs.PortSums.{is_used, port_sums, senders_at};
ghost use Rattle.ats_tally.specs.ClassSums.{port_sums_of};
ghost use Rattle.ats_tally.specs.Tallies.{AreCounted, SetsTallies};

use crate::class_sums::ClassSums;
use crate::class_tallies::tallies_at;
use crate::shares::shares_of;
use crate::tally::Tally;
use ats_class_table::{CLASSES, PortClassTable};
use ats_network::Network;
use std::alloc::{AllocError, Global};
use std::marker::Model;

/// What the streams and flows of a network make of each port and class, each found at once. Contracts see the network.
#[derive(Drop)]
pub struct Tallies<'a> {
    network: &'a Network,
    table: PortClassTable<Tally>,
}

impl<'a> Model for Tallies<'a> {
    ghost use Rattle.ats_network.specs.Network.{DeclaredNetwork};
    ghost use Rattle.ats_tally.specs.Tallies.{AreCounted};

    ghost Value = { DeclaredNetwork };

    ghost view = { λ t. t.network.now };

    ghost invariant = { λ t. AreCounted t.network.now t.table };
}

impl<'a> Tallies<'a> {
    /// What the senders of a network make of its ports and classes. It looks at each path once.
    pub fn new(alloc: Global, network: &'a Network) -> Result<Self, AllocError>
        ensures { IfOk result (λ tallies. tallies ≡ network.now) }
    {
        let table = table_of(alloc, network)?;
        Ok(Tallies { network, table })
    }

    /// The network.
    pub fn network(&self) -> &Network
        ensures value { result.now ≡ self.now }
        ensures rules { IsNetwork self.now }
    {
        self.network
    }

    /// What the senders make of a class at a port.
    pub fn tally(&self, port: u32, class: u8) -> Tally
        requires port { port < length self.now.topology.ports }
        requires class_least { 1 ≤ class }
        requires class_most { class ≤ 7 }
        ensures { IsTally class (senders_at self.now.topology port (senders_of self.now)) result }
    {
        self.table.get(port, class)
    }

    /// The sums of a port and a class.
    pub fn sums(&self, port: u32, class: u8) -> ClassSums
        requires port { port < length self.now.topology.ports }
        requires class_least { 1 ≤ class }
        requires class_most { class ≤ 7 }
        ensures { port_sums_of result ≡ port_sums self.now port class }
    {
        let ports = self.network.topology().ports();
        ClassSums::of(self.tally(port, class), ports[port as usize].ps_per_bit)
    }

    /// Whether some stream of the class uses the port, which need not be one of the network's.
    pub fn uses(&self, port: u32, class: u8) -> bool
        requires class_least { 1 ≤ class }
        requires class_most { class ≤ 7 }
        ensures { result ≡ is_used self.now port class }
    {
        if port as usize >= self.network.topology().ports().len() {
            return false;
        }
        self.tally(port, class).least.is_some()
    }
}

// What the senders make of each class at each port: each is counted in one share a port, and of the shares of a port
// come the tallies of its classes.
fn table_of(alloc: Global, network: &Network) -> Result<PortClassTable<Tally>, AllocError>
    ensures { IfOk result (AreCounted network.now) }
{
    let shares = shares_of(alloc, network)?;
    let ports = network.topology().ports().len();
    let mut table = PortClassTable::new(alloc, ports, Tally::new())?;
    for port in 0..ports as u32 {
        set_tallies(&mut table, port, &tallies_at(&shares, network, port));
    }
    Ok(table)
}

// Puts the tallies of the classes of a port.
fn set_tallies(table: &mut PortClassTable<Tally>, port: u32, tallies: &[Tally; CLASSES])
    requires { port < table.old.ports }
    ensures { SetsTallies port 8 tallies.now table.old table.new }
{
    for (class, tally) in tallies.iter().enumerate() {
        table.set(port, class as u8, *tally);
    }
}
