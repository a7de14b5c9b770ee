//! Regulators by clocks that differ: what frames keep of a rate and a burst from one clock to another, and that shaping
//! is free where each bridge goes by its own clock.
#![tactic(auto)]

pub mod laws;
