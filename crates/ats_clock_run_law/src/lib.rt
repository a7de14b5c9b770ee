//! The laws that tie runs in which each bridge goes by its own clock to runs by true time.
#![tactic(auto)]

pub mod laws;
