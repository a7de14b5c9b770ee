//! Times, rates, names and numbers: the words that every other crate of the simulator speaks in.
#![tactic(auto)]

pub mod division;
pub mod failure;
pub mod laws;
pub mod name;
pub mod name_table;
pub mod numbers;
pub mod pace;
pub mod rate;
pub mod tie;
pub mod time;
pub mod wire;

pub use division::ceil_div;
pub use failure::{Failure, Fault};
pub use name::Name;
pub use name_table::NameTable;
pub use numbers::number;
pub use pace::{Drawn, Greatest, Least, Pace};
pub use rate::Rate;
pub use tie::{Early, Late, Mixed, Tie};
pub use time::Ps;
pub use wire::wire_bits;
