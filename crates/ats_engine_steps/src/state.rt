//! Where a run stands.

use crate::stages::Stages;
use crate::turn::Turn;
use ats_events::Moment;
use ats_group::Groups;
use ats_num::{Ps, Tie};
use ats_run_records::{Records, Store};
use ats_transmit::Port;

/// Where a run stands between two events.
#[derive(Drop)]
pub struct State<T: Tie, S: Store> {
    /// How far each frame is along each of its legs, by their rows.
    pub stages: Stages,
    /// What has happened to each frame along them.
    pub records: Records<S>,
    /// The ports, by their numbers.
    pub ports: Vec<Port<T>>,
    /// What each port does next.
    pub turns: Vec<Turn>,
    /// From when on the next frame may arrive behind each port.
    pub arrives_from: Vec<Ps>,
    /// The groups of schedulers.
    pub groups: Groups,
    /// The moment of the last event.
    pub last: Moment,
    /// The order among frames of one port, class and eligibility time.
    pub tie: T,
}
