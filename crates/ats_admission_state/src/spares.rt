//! Spares: how far the sums along routes are below their deadlines, at least.

ghost use Rattle.std.specs.Prelude.{ℕ, ◌+◌, ◌<◌, ◌≤◌, List, length, slice_index_or, unwrap_or};
ghost use Rattle.ats_class_table.specs.Table.{AreValuesAt, Table, value_at};
ghost use Rattle.ats_admission_users.specs.Users.{ListsPaths, users_of};
ghost use Rattle.ats_admission_state.specs.Judging.{KeepsOthers};
ghost use Rattle.ats_admission_state.specs.Spares.{AreLowered, AreUsers, KeepSpares};

use crate::busy::is_busy;
use ats_admission_users::PortUsers;
use ats_class_table::{CLASSES, PortClassTable};

/// The bounds at a port, by class.
pub(crate) fn bounds_at(bounds: &PortClassTable<u128>, port: u32) -> [u128; CLASSES]
    requires { port < bounds.now.ports }
    ensures { AreValuesAt bounds.now port result }
{
    let mut eight = [0; CLASSES];
    eight.copy_from_slice(bounds.values_at(port));
    eight
}

/// Lowers the spares of the routes that have a port, where the bounds there were these before, and some are greater.
pub(crate) fn keep_spares(
    spares: &mut [u64],
    bounds: &PortClassTable<u128>,
    users: &PortUsers,
    port: u32,
    before: &[u128; CLASSES],
)
    requires port { port < bounds.now.ports }
    requires listed { port < length users.now.lists }
    requires users { AreUsers (length spares.old) users.now }
    ensures { (old : Table ℕ) → AreValuesAt old port before.now → KeepsOthers port old bounds.now
        → KeepSpares users.now old bounds.now spares.old spares.new }
{
    let rise = rise_over(bounds, port, before);
    if rise > 0 {
        lower(spares, users, port, rise);
    }
}

// By how much at most the bounds at a port are greater than these.
fn rise_over(bounds: &PortClassTable<u128>, port: u32, before: &[u128; CLASSES]) -> u128
    requires { port < bounds.now.ports }
    ensures { (class : ℕ) → class ≤ 7
        → unwrap_or (value_at bounds.now port class) 0 ≤ slice_index_or before.now class 0 + result }
{
    let mut rise = 0;
    let eight = bounds.values_at(port);
    for (class, bound) in eight.iter().enumerate() {
        rise = rise.max(bound.saturating_sub(before[class]));
    }
    rise
}

// Lowers the spares of the routes that have a port by so much, to 0 where they are less. Where the port is busy, all
// are lowered: that is sooner done.
fn lower(spares: &mut [u64], users: &PortUsers, port: u32, rise: u128)
    requires port { port < length users.now.lists }
    requires users { AreUsers (length spares.old) users.now }
    ensures { (paths : List (List ℕ)) → ListsPaths (length users.now.lists) paths users.now
        → AreLowered (users_of paths port) rise spares.old spares.new }
{
    if is_busy(users, port, spares.len()) {
        lower_all(spares, rise);
    } else {
        lower_users(spares, users, port, rise);
    }
}

// Lowers all spares by so much, to 0 where they are less.
fn lower_all(spares: &mut [u64], rise: u128)
    ensures { (numbers : List ℕ) → AreLowered numbers rise spares.old spares.new }
{
    let most = rise.min(u128::from(u64::MAX)) as u64;
    for number in 0..spares.len() {
        spares[number] = spares[number].saturating_sub(most);
    }
}

// Lowers the spares of the routes that have a port by so much, to 0 where they are less.
fn lower_users(spares: &mut [u64], users: &PortUsers, port: u32, rise: u128)
    requires port { port < length users.now.lists }
    requires users { AreUsers (length spares.old) users.now }
    ensures { (paths : List (List ℕ)) → ListsPaths (length users.now.lists) paths users.now
        → AreLowered (users_of paths port) rise spares.old spares.new }
{
    for rank in 0..users.count(port) {
        let number = users.user(port, rank) as usize;
        spares[number] = u128::from(spares[number]).saturating_sub(rise) as u64;
    }
}
