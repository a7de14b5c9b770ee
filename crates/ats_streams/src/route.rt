//! The ports from a talker to one listener.

ghost use Rattle.std.specs.Prelude.{◌≡◌, ◌+◌, ◌<◌, ◌≤◌, [], ◌∷◌, ◌++◌, length, All};
ghost use Rattle.ats_streams.specs.Branches.{AreBranches, leg_at, routes_of};
ghost use Rattle.ats_streams.specs.Path.{IsPath};

use crate::branch::{Branch, leg_of};
use crate::path::MAX_PORTS;
use std::marker::Model;

/// The numbers of the ports from a talker to one listener, 64 at most. It takes no memory, and contracts see the list
/// of them.
#[derive(Debug, Drop)]
pub struct Route {
    numbers: [u32; MAX_PORTS],
    start: usize, // the place of the first port; the others stand behind it
}

impl Model for Route {
    ghost use Rattle.std.specs.Prelude.{ℕ, ◌≤◌, List, drop};
    ghost use Rattle.ats_streams.specs.declared.path.TheConstants.{MAX_PORTS};

    ghost Value = { List ℕ };

    ghost view = { λ r. drop r.start r.numbers };

    ghost invariant = { λ r. r.start ≤ MAX_PORTS };
}

impl Route {
    /// These ports.
    pub fn of(ports: &[u32]) -> Self
        requires { length ports.now ≤ MAX_PORTS }
        ensures { result ≡ ports.now }
    {
        let mut route = Route {
            numbers: [0; MAX_PORTS],
            start: MAX_PORTS,
        };
        route.lead_by(ports);
        route
    }

    /// The ports, from the talker on.
    pub fn as_slice(&self) -> &[u32]
        ensures value { result.now ≡ self.now }
        ensures most { length self.now ≤ MAX_PORTS }
    {
        &self.numbers[self.start..]
    }

    // Puts a port in front.
    fn push_front(&mut self, port: u32)
        requires { length self.old < MAX_PORTS }
        ensures { self.new ≡ port ∷ self.old }
    {
        self.start -= 1;
        self.numbers[self.start] = port;
    }

    // Puts ports in front.
    fn lead_by(&mut self, ports: &[u32])
        requires { length ports.now + length self.old ≤ MAX_PORTS }
        ensures { self.new ≡ ports.now ++ self.old }
    {
        let mut left = ports.len();
        while left > 0 {
            left -= 1;
            self.push_front(ports[left]);
        }
    }
}

/// The ports from the talker to the listener of a leg.
pub(crate) fn route_of(ports: &[u32], branches: &[Branch], leg: usize) -> Route
    requires branches { AreBranches ports.now branches.now }
    requires leg { leg ≤ length branches.now }
    requires routes { All IsPath (routes_of ports.now branches.now) }
    ensures value { result ≡ leg_at (routes_of ports.now branches.now) leg }
    ensures path { IsPath result }
{
    let mut route = Route::of(leg_of(ports, branches, leg));
    let mut at = leg;
    while at > 0 {
        let branch = branches[at - 1];
        at = branch.leg as usize;
        let before = leg_of(ports, branches, at);
        route.lead_by(&before[..branch.hop as usize]);
    }
    route
}
