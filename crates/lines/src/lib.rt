// The lines of the console: what the words of a line ask for, and words for bytes, tags and cryptograms.
#![tactic(auto)]

pub mod asked;
pub mod line;
pub mod numbers;
pub mod words;
