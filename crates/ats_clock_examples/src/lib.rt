//! Clocks that are not ideal, on closed networks: the numbers that they give, to the bit and to the picosecond, what
//! is printed of them, and legal runs by them.
#![tactic(auto)]

pub mod number_laws;
pub mod run_laws;
pub mod text_laws;
