//! The ports that a stream or a flow goes along.

ghost use Rattle.std.specs.Prelude.{◌↔◌, IsTrue};
ghost use Rattle.ats_streams.specs.Path.{IsPath};

/// The most ports of a route.
pub const MAX_PORTS: usize = 64;

/// The most ports of a route in a network of short routes.
pub const MAX_SHORT_PORTS: usize = 16;

/// Whether a path has 1 to 64 ports.
pub fn is_path(path: &[u32]) -> bool
    ensures { IsTrue result ↔ IsPath path.now }
{
    !path.is_empty() && path.len() <= MAX_PORTS
}
