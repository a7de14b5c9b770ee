//! Facts of lists, optional values and bytes that the proofs of several crates use, where the library has none.
#![tactic(auto)]
