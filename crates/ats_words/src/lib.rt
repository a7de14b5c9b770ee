//! Lines of words, as shape files and request files have them: a line is cut into its words once.
#![tactic(auto)]

pub mod word_line;

pub use word_line::WordLine;
