//! The constants of this crate have the values of the rules.

ghost use Rattle.std.specs.Prelude.{◌≡◌};
ghost use Rattle.ats_streams.specs.declared.path.TheConstants.{MAX_PORTS, MAX_SHORT_PORTS};
ghost use Rattle.ats_streams.specs.declared.stream.TheConstants.{MAX_CLASS, MAX_DEADLINE_NS, MAX_VLAN};

/// The constants that the definitions cite have these values.
pub fn constants_are()
    ensures ports { MAX_PORTS ≡ 64 }
    ensures short { MAX_SHORT_PORTS ≡ 16 }
    ensures class { MAX_CLASS ≡ 7 }
    ensures deadline { MAX_DEADLINE_NS ≡ 1000000000 }
    ensures vlan { MAX_VLAN ≡ 4094 }
{}
