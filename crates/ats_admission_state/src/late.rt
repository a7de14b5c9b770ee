//! Routes whose sum of bounds is over their deadline.

ghost use Rattle.std.specs.Prelude.{◌≡◌, ◌+◌, ◌<◌, ◌≤◌, List, ℕ, length, slice_index_or, take, All};
ghost use Rattle.ats_admission_users.specs.Users.{ListsPaths};
ghost use Rattle.ats_admission_state.specs.Judging.{FindsFirstLate, LooksAt, is_below};
ghost use Rattle.ats_admission_state.specs.Routes.{AreBounded, is_late, no_route, route_paths};
ghost use Rattle.ats_admission_state.specs.Spares.{AreSpares};

use crate::busy::has_busy;
use crate::routes::Route;
use ats_admission_users::PortUsers;
use ats_class_table::PortClassTable;

/// The late route with the lowest number, looked for among those that have a port of a path, or among all, where a port
/// of the path is had by a quarter of them. A route is summed up only where its spare says nothing, and its spare is
/// known from then on.
pub(crate) fn find_late(
    bounds: &PortClassTable<u128>,
    spares: &mut [u64],
    routes: &[Route],
    users: &PortUsers,
    path: &[u32],
) -> Option<u32>
    requires few { length routes.now ≤ 4096 }
    requires ports { All (λ p. p < length users.now.lists) path.now }
    requires bounded { All (AreBounded bounds.now) routes.now }
    requires users { ListsPaths (length users.now.lists) (route_paths routes.now) users.now }
    requires spares { AreSpares bounds.now routes.now spares.old }
    ensures found { FindsFirstLate bounds.now routes.now path.now result }
    ensures spares { AreSpares bounds.now routes.now spares.new }
{
    if has_busy(users, path, routes.len()) {
        first_of_all(bounds, spares, routes)
    } else {
        first_near(bounds, spares, routes, users, path)
    }
}

// The late route with the lowest number.
fn first_of_all(bounds: &PortClassTable<u128>, spares: &mut [u64], routes: &[Route]) -> Option<u32>
    requires few { length routes.now ≤ 4096 }
    requires bounded { All (AreBounded bounds.now) routes.now }
    requires spares { AreSpares bounds.now routes.now spares.old }
    ensures found { (path : List ℕ) → FindsFirstLate bounds.now routes.now path result }
    ensures spares { AreSpares bounds.now routes.now spares.new }
{
    for number in 0..routes.len() {
        if is_late(bounds, spares, routes, number) {
            return Some(number as u32);
        }
    }
    None
}

// Of the routes that have a port of a path, the late one with the lowest number.
fn first_near(
    bounds: &PortClassTable<u128>,
    spares: &mut [u64],
    routes: &[Route],
    users: &PortUsers,
    path: &[u32],
) -> Option<u32>
    requires ports { All (λ p. p < length users.now.lists) path.now }
    requires bounded { All (AreBounded bounds.now) routes.now }
    requires users { ListsPaths (length users.now.lists) (route_paths routes.now) users.now }
    requires spares { AreSpares bounds.now routes.now spares.old }
    ensures found { FindsFirstLate bounds.now routes.now path.now result }
    ensures spares { AreSpares bounds.now routes.now spares.new }
{
    let mut found = None;
    for hop in 0..path.len() {
        found = first_to(bounds, spares, routes, users, path, hop, found);
    }
    found
}

// The late route with the lowest number of those that have one of the ports up to this hop, from the one that has a
// port before it.
fn first_to(
    bounds: &PortClassTable<u128>,
    spares: &mut [u64],
    routes: &[Route],
    users: &PortUsers,
    path: &[u32],
    hop: usize,
    before: Option<u32>,
) -> Option<u32>
    requires hop { hop < length path.now }
    requires ports { All (λ p. p < length users.now.lists) path.now }
    requires bounded { All (AreBounded bounds.now) routes.now }
    requires users { ListsPaths (length users.now.lists) (route_paths routes.now) users.now }
    requires before { FindsFirstLate bounds.now routes.now (take hop path.now) before }
    requires spares { AreSpares bounds.now routes.now spares.old }
    ensures found { FindsFirstLate bounds.now routes.now (take (hop + 1) path.now) result }
    ensures spares { AreSpares bounds.now routes.now spares.new }
{
    let port = path[hop];
    let mut found = before;
    for rank in 0..users.count(port) {
        let number = users.user(port, rank);
        if !is_below(number, found) {
            return found; // nor are those behind it, whose numbers are greater
        }
        found = look_at(bounds, spares, routes, number, found);
    }
    found
}

// The lower one of the late route that was found so far, and the route with this number, where that is late.
fn look_at(
    bounds: &PortClassTable<u128>,
    spares: &mut [u64],
    routes: &[Route],
    number: u32,
    before: Option<u32>,
) -> Option<u32>
    requires number { number < length routes.now }
    requires bounded { All (AreBounded bounds.now) routes.now }
    requires spares { AreSpares bounds.now routes.now spares.old }
    ensures looks { LooksAt bounds.now routes.now number before result }
    ensures spares { AreSpares bounds.now routes.now spares.new }
{
    if is_below(number, before) && is_late(bounds, spares, routes, number as usize) {
        Some(number)
    } else {
        before
    }
}

// Whether the route with this number is late. Where its spare says nothing, its sums tell, and its spare from then on.
fn is_late(
    bounds: &PortClassTable<u128>,
    spares: &mut [u64],
    routes: &[Route],
    number: usize,
) -> bool
    requires number { number < length routes.now }
    requires bounded { All (AreBounded bounds.now) routes.now }
    requires spares { AreSpares bounds.now routes.now spares.old }
    ensures late { result ≡ is_late bounds.now (slice_index_or routes.now number no_route) }
    ensures spares { AreSpares bounds.now routes.now spares.new }
{
    if spares[number] > 0 {
        return false;
    }
    let spare = routes[number].spare(bounds);
    spares[number] = spare;
    spare == 0
}

// Whether a number is below the one that was found, where one was.
fn is_below(number: u32, found: Option<u32>) -> bool
    ensures { result ≡ is_below number found }
{
    match found {
        None => true,
        Some(lowest) => number < lowest,
    }
}
