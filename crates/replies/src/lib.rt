// The lines that the console answers with.
#![tactic(auto)]

pub mod reply;
