//! Ports that many routes have.

ghost use Rattle.std.specs.Prelude.{◌≡◌, ◌<◌, ◌/◌, nat_le, [], length, slice_index_or, All};
ghost use Rattle.std.specs.List.{list_any};

use ats_admission_users::PortUsers;

/// Whether a port of a path is busy.
pub(crate) fn has_busy(users: &PortUsers, path: &[u32], routes: usize) -> bool
    requires { All (λ p. p < length users.now.lists) path.now }
    ensures { result ≡ list_any (λ p. nat_le (routes / 4) (length (slice_index_or users.now.lists p []))) path.now }
{
    for port in path {
        if is_busy(users, *port, routes) {
            return true;
        }
    }
    false
}

/// Whether a port is busy: had by a quarter of so many routes at least. All are then sooner looked at than its users.
pub(crate) fn is_busy(users: &PortUsers, port: u32, routes: usize) -> bool
    requires { port < length users.now.lists }
    ensures { result ≡ nat_le (routes / 4) (length (slice_index_or users.now.lists port [])) }
{
    users.count(port) >= routes / 4
}
