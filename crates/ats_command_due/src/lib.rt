//! Which answers are due to each command, and what a call did: definitions, over which all commands stand, and small
//! lemmas about them.
#![tactic(auto)]
